//! What a scrub tells: of each name by cloud, metadata first, and then the chunks row by row. It changes nothing.

use nc_stage::play;
use std::test::Fail;

#[test]
fn each_state_of_a_chunk_is_told(rt: HostRuntime) -> Result<(), Fail> {
    play(
        &rt,
        r#"
        # nothing is told where all is right
        clouds 4
        put a < "abcdefgh" -> 0 Ok = generation:1
        scrub -> 0 Ok
        rounds of 4 4 4 4
        gets of chunks 2 2 2 2
        unchanged

        # a chunk is gone, cut by a byte, or has bytes of the same length that the put didn't store
        lose 0 c-61-0-1
        cut 1 c-61-0-0
        seal 2 c-61-0-0 d47f
        seal 2 c-61-0-1 8522
        scrub -> 0 Ok = "cloud·0·chunk·1·missing·a¶" "cloud·1·chunk·0·broken·a¶" "cloud·2·chunk·0·changed·a¶" "cloud·2·chunk·1·changed·a¶"
        unchanged
        restore 0 1 -> 5 after 0 names: too few clouds: 2 row 0 changed

        # a chunk of another cloud, of another length, or with more bytes than asked for is broken
        clouds 4
        put a < "abcdefgh" -> 0 Ok = generation:1
        copy 0 c-61-0-0 to 1
        seal 2 c-61-0-1 85
        raw 3 c-61-0-0 mixed:5000
        seal 3 c-61-0-1 a7fdff
        scrub -> 0 Ok = "cloud·1·chunk·0·broken·a¶" "cloud·2·chunk·1·broken·a¶" "cloud·3·chunk·0·broken·a¶" "cloud·3·chunk·1·broken·a¶"
        unchanged
        "#,
    )
}

#[test]
fn each_state_of_metadata_is_told(rt: HostRuntime) -> Result<(), Fail> {
    play(
        &rt,
        r#"
        # in the place of the highest generation's there is none, a cut one, or one of a lower generation
        clouds 4
        put a < "abcdefgh" -> 0 Ok = generation:1
        put a < "abc" -> 0 Ok = generation:2
        put a < "x" -> 0 Ok = generation:3
        cut 0 m-61-1
        seal 1 m-61-1 live:1
        lose 2 m-61-1
        seal 3 m-61-0 live:2
        scrub -> 0 Ok = "cloud·0·meta·broken·a¶" "cloud·1·meta·old·a¶" "cloud·2·meta·missing·a¶"
        rounds of 4 4 4 4
        unchanged
        seal 0 m-61-1 gone:2
        raw 1 m-61-1 mixed:2049
        seal 2 m-61-1 gone:1
        scrub -> 0 Ok = "cloud·0·meta·broken·a¶" "cloud·1·meta·broken·a¶" "cloud·2·meta·old·a¶"
        recover -> 0 Ok = "settled·1¶"
        scrub -> 0 Ok

        # a delete that failed and a later put that stopped leave metadata of a lower generation
        clouds 4
        put a < "old" -> 0 Ok = generation:1
        entry 22 fails leaving old
        put a < "abcdefgh" -> 0 Ok = generation:2
        scrub -> 0 Ok
        stopped in round 4 leaving new old gone broken: put a < "new!"
        scrub -> 0 Ok = "cloud·1·meta·old·a¶" "cloud·2·meta·missing·a¶" "cloud·3·meta·broken·a¶"
        unchanged
        "#,
    )
}

#[test]
fn flaws_are_told_by_name_and_by_cloud(rt: HostRuntime) -> Result<(), Fail> {
    play(
        &rt,
        r#"
        # two names of which a cloud has nothing, and others lack a part; then a restore and a recover leave none
        clouds 4
        put n·of·two < "0123456789" -> 0 Ok = generation:1
        put a < "abcdefgh" -> 0 Ok = generation:1
        lose 2
        cut 0 m-61-1
        cut 0 c-61-0-1
        cut 0 m-6e206f662074776f-1
        lose 3 c-6e206f662074776f-0-0
        scrub -> 0 Ok = "cloud·0·meta·broken·a¶" "cloud·0·chunk·1·broken·a¶" "cloud·2·meta·missing·a¶" "cloud·2·chunk·0·missing·a¶" "cloud·2·chunk·1·missing·a¶" "cloud·0·meta·broken·n·of·two¶" "cloud·2·meta·missing·n·of·two¶" "cloud·2·chunk·0·missing·n·of·two¶" "cloud·2·chunk·1·missing·n·of·two¶" "cloud·3·chunk·0·missing·n·of·two¶"
        unchanged
        recover -> 0 Ok = "settled·2¶"
        scrub -> 0 Ok = "cloud·0·chunk·1·broken·a¶" "cloud·2·chunk·0·missing·a¶" "cloud·2·chunk·1·missing·a¶" "cloud·2·chunk·0·missing·n·of·two¶" "cloud·2·chunk·1·missing·n·of·two¶" "cloud·3·chunk·0·missing·n·of·two¶"
        restore 2 -> 0 Ok = "restored·4¶"
        restore 0 3 -> 0 Ok = "restored·2¶"
        scrub -> 0 Ok

        # the chunks of a repaired cloud stand in the other slot
        clouds 10
        put a < mixed:100 -> 0 Ok = generation:1
        lose 9
        repair 9 -> 0 Ok = "repaired·1¶"
        scrub -> 0 Ok
        lose 9 c-61-1-0
        lose 8 c-61-0-1
        scrub -> 0 Ok = "cloud·8·chunk·1·missing·a¶" "cloud·9·chunk·0·missing·a¶"
        "#,
    )
}

#[test]
fn names_without_a_file_have_no_chunks(rt: HostRuntime) -> Result<(), Fail> {
    play(
        &rt,
        r#"
        # no name
        clouds 4
        scrub -> 0 Ok
        rounds of

        # of a removed file only the metadata that says so is wanted, and of a name without metadata nothing is
        put a < "abcdefgh" -> 0 Ok = generation:1
        rm a -> 0 Ok = generation:2
        raw 1 c-61-0-0 "junk"
        raw 2 c-62-0-0 "junk"
        raw 2 m-62-1 "junk"
        scrub -> 0 Ok
        rounds of 4 4 4 4
        gets of chunks 0 0 0 0
        unchanged
        cut 0 m-61-0
        lose 3
        scrub -> 0 Ok = "cloud·0·meta·broken·a¶" "cloud·3·meta·missing·a¶"
        unchanged
        "#,
    )
}

#[test]
fn every_cloud_must_answer_a_scrub(rt: HostRuntime) -> Result<(), Fail> {
    play(
        &rt,
        r#"
        # the least cloud of the first step in which one fails is named: 4 lists, 8 looks, 4 chunks of row 0, and 4 of row 1
        clouds 4
        put a < "abcdefgh" -> 0 Ok = generation:1
        put b < "0123456789" -> 0 Ok = generation:1
        lose 2 c-61-0-0
        failing 4 3: scrub -> 4 after 0 names: cloud 2 failed leaving 23 23 23 23
        failing 8 9: scrub -> 4 after 0 names: cloud 0 failed leaving 23 23 23 23
        failing 14: scrub -> 4 after 0 names: cloud 1 failed leaving 23 23 23 23
        failing 20 19: scrub -> 4 after 0 names: cloud 2 failed leaving 23 23 23 23
        failing 16 17: scrub -> 4 after 0 names: cloud 3 failed leaving 23 23 23 23

        # nothing is told of a name before
        failing 22: scrub -> 4 after 1 names: cloud 1 failed leaving 23 23 23 23
        failing 36: scrub -> 4 after 1 names: cloud 3 failed leaving 23 23 23 23
        failing 37: scrub -> 0 Ok = "cloud·2·chunk·0·missing·a¶" leaving 23 23 23 23

        # metadata of elsewhere is told, and then a conflict
        seal 0 m-62-0 gone:2
        seal 2 m-62-0 live:2
        scrub -> 11 after 1 names: clouds 0 and 2 differ at generation 2
        rounds of 4 4 4 4 4 4
        unchanged
        copy 1 m-62-1 to 3
        scrub -> 11 after 1 names: cloud 3 holds objects of cloud 1 of 4
        unchanged
        refused: scrub a -> 2 usage
        "#,
    )
}
