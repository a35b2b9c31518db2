//! Restores of one cloud or two: what they read and write, and what they leave as it is.

use nc_stage::play;
use std::test::Fail;

#[test]
fn a_restore_ends_what_a_repair_could_not(rt: HostRuntime) -> Result<(), Fail> {
    play(
        &rt,
        r#"
        # a damaged chunk stops the repair of cloud 1; with both clouds restored the chunks are those that the put stored
        clouds 4
        put a < "abcdefgh" -> 0 Ok = generation:1
        lose 1
        cut 2 c-61-0-0
        cut 2 c-61-0-1
        repair 1 -> 10 after 0 names: cloud 2 row 0 is broken
        restore 1 2 -> 0 Ok = "restored·4¶"
        rounds of 4 4 2 2 2 2 2 2
        gets of chunks 2 0 2 2
        payloads c-61-0-0 442a 8bdc d47e 8f39
        payloads c-61-0-1 c758 d759 8521 a7fd
        scrub -> 0 Ok
        unchanged
        without two: get a -> 0 Ok = "abcdefgh"
        stat a -> 0 Ok = "generation·1·length·8·witnesses·yes¶"

        # without witnesses no repair is found for the striped code, and a restore needs none
        clouds 4
        seal each c-61-0-0 "ab" "ef" 0404 abae
        seal each c-61-0-1 "cd" "gh" 040c adb4
        seal all m-61-1 live:1
        lose 1
        repair 1 -> 6 after 0 names: none of 64 candidates is good
        restore 1 -> 0 Ok = "restored·2¶"
        payloads c-61-0-0 "ab" "ef" 0404 abae
        payloads c-61-0-1 "cd" "gh" 040c adb4
        "#,
    )
}

#[test]
fn good_chunks_are_not_written(rt: HostRuntime) -> Result<(), Fail> {
    play(
        &rt,
        r#"
        # a whole vault: after the look there are the gets of the named clouds, row by row, and no round of writes
        clouds 4
        put a < "abcdefgh" -> 0 Ok = generation:1
        restore 0 3 -> 0 Ok = "restored·0¶"
        rounds of 4 4 2 2
        gets of chunks 2 0 0 2
        unchanged
        failing 17 18 19 20: restore 0 3 -> 0 Ok = "restored·0¶" leaving 12 12 12 12
        restore 02 -> 0 Ok = "restored·0¶"
        rounds of 4 4 1 1
        gets of chunks 0 0 2 0
        unchanged

        # one chunk of a cloud that was repaired, so that its chunks stand in the other slot
        lose 1
        repair 1 -> 0 Ok = "repaired·1¶"
        cut 1 c-61-1-1
        restore 3 1 -> 0 Ok = "restored·1¶"
        rounds of 4 4 2 2 2 2 1
        scrub -> 0 Ok

        # damage on clouds that aren't named is left, but each cloud gets the metadata
        lose 3
        cut 2 c-61-0-0
        lose 0 c-61-0-1
        restore 1 -> 0 Ok = "restored·0¶"
        rounds of 4 4 1 1 1
        holds 0 m-61-0 c-61-0-0
        holds 3 m-61-0

        # there is nothing to restore
        clouds 4
        restore 1 2 -> 0 Ok = "restored·0¶"
        rounds of
        objects 0
        "#,
    )
}

#[test]
fn a_third_damaged_cloud_leaves_too_few(rt: HostRuntime) -> Result<(), Fail> {
    play(
        &rt,
        r#"
        # it is listed, and nothing is written
        clouds 4
        put a < "abcdefgh" -> 0 Ok = generation:1
        lose 1 c-61-0-0
        lose 1 c-61-0-1
        cut 2 c-61-0-0
        cut 2 c-61-0-1
        copy 0 c-61-0-0 to 3
        restore 1 2 -> 5 after 0 names: too few clouds: 3 row 0 broken
        rounds of 4 4 2 2 2 1
        unchanged
        restore 3 1 -> 5 after 0 names: too few clouds: 2 row 0 broken
        unchanged
        restore 2 3 -> 5 after 0 names: too few clouds: 1 row 0 missing
        unchanged
        restore 1 -> 5 after 0 names: too few clouds: 2 row 0 broken, 3 row 0 broken
        unchanged
        restore 0 -> 0 Ok = "restored·0¶"
        unchanged
        seal 3 c-61-0-0 8f39
        seal 3 c-61-0-1 a7fc
        restore 1 2 -> 5 after 0 names: too few clouds: 3 row 1 changed
        unchanged
        lose 3 c-61-0-1
        restore 1 2 -> 5 after 0 names: too few clouds: 3 row 1 missing
        unchanged
        seal 3 c-61-0-1 a7fd
        restore 1 2 -> 0 Ok = "restored·4¶"
        without two: get a -> 0 Ok = "abcdefgh"
        "#,
    )
}

#[test]
fn a_source_that_fails_is_passed_over(rt: HostRuntime) -> Result<(), Fail> {
    play(
        &rt,
        r#"
        # where one cloud is restored, another one is asked in its place: entries 15 to 18 are the gets of clouds 0 and 2
        clouds 4
        put a < "abcdefgh" -> 0 Ok = generation:1
        lose 1 c-61-0-0
        lose 1 c-61-0-1
        failing 15: restore 1 -> 0 Ok = "restored·2¶" leaving 12 12 12 12
        failing 18: restore 1 -> 0 Ok = "restored·2¶" leaving 12 12 12 12
        failing 15 17: restore 1 -> 5 after 0 names: too few clouds: 0 failed, 2 failed leaving 10 10 10 10
        failing 16 19: restore 1 -> 5 after 0 names: too few clouds: 2 failed, 3 failed leaving 10 10 10 10
        entry 16 fails leaving old
        restore 1 -> 0 Ok = "restored·2¶"
        rounds of 4 4 1 1 2 1 1 1 1 1
        gets of chunks 2 0 0 2
        scrub -> 0 Ok

        # where two are, it is listed: entries 17 to 20 are the gets of clouds 0 and 3
        cut 1 c-61-0-0
        cut 2 c-61-0-1
        failing 18: restore 1 2 -> 5 after 0 names: too few clouds: 3 failed leaving 12 12 12 12
        failing 19: restore 1 2 -> 5 after 0 names: too few clouds: 0 failed leaving 12 12 12 12
        failing 17 18: restore 1 2 -> 5 after 0 names: too few clouds: 0 failed, 3 failed leaving 12 12 12 12
        restore 1 2 -> 0 Ok = "restored·2¶"
        rounds of 4 4 2 2 2 2 1 1

        # of 7 clouds five are asked first: entries 24 to 28 are their gets of row 0
        clouds 7
        put a < mixed:100 -> 0 Ok = generation:1
        cut 3 c-61-0-0
        failing 24: restore 3 -> 0 Ok = "restored·1¶" leaving 21 21 21 21
        failing 27 28: restore 3 -> 5 after 0 names: too few clouds: 4 failed, 5 failed leaving 21 21 21 21
        "#,
    )
}

#[test]
fn the_version_stays_and_nothing_is_deleted(rt: HostRuntime) -> Result<(), Fail> {
    play(
        &rt,
        r#"
        # what no longer counts of a name stays as well
        clouds 4
        put a < "old" -> 0 Ok = generation:1
        put a < "abcdefgh" -> 0 Ok = generation:2
        raw 1 m-61-1 "junk"
        raw 2 c-61-0-0 "junk"
        cut 1 c-61-1-0
        cut 2 c-61-1-1
        stat a -> 0 Ok = "generation·2·length·8·witnesses·yes¶"
        restore 1 2 -> 0 Ok = "restored·2¶"
        rounds of 4 4 2 2 2 2 1 1
        holds 1 m-61-0 m-61-1 c-61-1-0 c-61-1-1
        holds 2 m-61-0 c-61-1-0 c-61-1-1 c-61-0-0
        stat a -> 0 Ok = "generation·2·length·8·witnesses·yes¶"

        # the last generation that there is
        clouds 4
        seal each c-61-0-0 "ab" "ef" 0404 abae
        seal each c-61-0-1 "cd" "gh" 040c adb4
        seal all m-61-0 live:18446744073709551614
        lose 2 c-61-0-0
        restore 2 -> 0 Ok = "restored·1¶"
        payloads c-61-0-0 "ab" "ef" 0404 abae
        payloads m-61-0 live:18446744073709551614 live:18446744073709551614

        # a put that stopped in its metadata is finished first
        clouds 4
        put a < "old" -> 0 Ok = generation:1
        stopped in round 4 leaving new old old old: put a < "new!"
        lose 3
        objects 16
        restore 3 -> 0 Ok = "restored·2¶"
        rounds of 4 4 3 1 1 2 2 1 1
        objects 21
        stat a -> 0 Ok = "generation·2·length·4·witnesses·yes¶"
        scrub -> 0 Ok
        "#,
    )
}

#[test]
fn names_are_restored_in_turn(rt: HostRuntime) -> Result<(), Fail> {
    play(
        &rt,
        r#"
        # the chunks of all files are counted, and there are none of a removed one
        clouds 4
        put b < "0123456789" -> 0 Ok = generation:1
        put a < "abcdefgh" -> 0 Ok = generation:1
        put Z -> 0 Ok = generation:1
        put p < "abc" -> 0 Ok = generation:1
        rm p -> 0 Ok = generation:2
        lose 2
        cut 3 c-62-0-0
        restore 2 3 -> 0 Ok = "restored·7¶"
        gets of chunks 6 6 0 6
        holds 2 m-5a-1 c-5a-0-0 c-5a-0-1 m-61-1 c-61-0-0 c-61-0-1 m-62-1 c-62-0-0 c-62-0-1 m-70-0
        scrub -> 0 Ok
        without two: get a -> 0 Ok = "abcdefgh"
        without two: get b -> 0 Ok = "0123456789"
        without two: get Z -> 0 Ok

        # the first name that it can't be done with ends it: a is done, of b the metadata is, and p isn't looked at
        clouds 4
        put p < "abc" -> 0 Ok = generation:1
        put b < "0123456789" -> 0 Ok = generation:1
        put a < "abcdefgh" -> 0 Ok = generation:1
        lose 1
        cut 0 c-62-0-1
        lose 3 c-62-0-0
        restore 1 -> 5 after 1 names: too few clouds: 0 row 1 broken, 3 row 0 missing
        gets of chunks 4 0 4 0
        holds 1 m-61-1 c-61-0-0 c-61-0-1 m-62-1
        "#,
    )
}
