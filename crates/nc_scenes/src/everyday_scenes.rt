//! Removing, listing, telling and settling, and what is left on the clouds.

use nc_stage::play;
use std::test::Fail;

#[test]
fn a_file_is_told_until_it_is_removed(rt: HostRuntime) -> Result<(), Fail> {
    play(
        &rt,
        r#"
        # a file is stored, told of, removed, and stored again
        clouds 4
        put a < "abcdefgh" -> 0 Ok = generation:1
        stat a -> 0 Ok = "generation·1·length·8·witnesses·yes¶"
        unchanged
        ls -> 0 Ok = "8·a¶"
        unchanged
        rm a -> 0 Ok = generation:2
        each holds m-61-0
        rm a -> 3 no such file
        unchanged
        stat a -> 3 no such file
        get a -> 3 no such file
        ls -> 0 Ok
        put a < "x" -> 0 Ok = generation:3
        each holds m-61-1 c-61-0-0 c-61-0-1

        # a name that was never stored has no file, and is left without an object
        clouds 4
        rm a -> 3 no such file
        stat a -> 3 no such file
        ls -> 0 Ok
        recover -> 0 Ok = "settled·0¶"
        objects 0
        raw 1 m-61-0 "junk"
        raw 2 c-61-1-1 "junk"
        ls -> 0 Ok
        recover -> 0 Ok = "settled·1¶"
        objects 0
        "#,
    )
}

#[test]
fn a_put_that_stopped_in_its_metadata_is_settled(rt: HostRuntime) -> Result<(), Fail> {
    play(
        &rt,
        r#"
        # a put that stopped in its metadata is settled, and nothing is left of the file before
        clouds 4
        put a < "old" -> 0 Ok = generation:1
        stopped in round 4 leaving new new broken new: put a < "new!"
        recover -> 0 Ok = "settled·1¶"
        each holds m-61-0 c-61-1-0 c-61-1-1
        get a -> 0 Ok = "new!"
        recover -> 0 Ok = "settled·1¶"
        unchanged

        # one cloud has the metadata: it is settled on, but not where that cloud is lost before
        clouds 4
        put a < "old" -> 0 Ok = generation:1
        stopped in round 4 leaving new old old old: put a < "new!"
        stat a -> 0 Ok = "generation·2·length·4·witnesses·yes¶"
        failing 1 5: get a -> 0 Ok = "old" leaving 21 21 21 21
        lose 0
        recover -> 0 Ok = "settled·1¶"
        get a -> 0 Ok = "old"
        holds 0 m-61-1
        holds 1 m-61-1 c-61-0-0 c-61-0-1
        holds 3 m-61-1 c-61-0-0 c-61-0-1

        # where it is lost after it was settled, the new file stays
        clouds 4
        put a < "old" -> 0 Ok = generation:1
        stopped in round 4 leaving new old old old: put a < "new!"
        recover -> 0 Ok = "settled·1¶"
        lose 0
        get a -> 0 Ok = "new!"
        "#,
    )
}

#[test]
fn files_are_listed_by_name(rt: HostRuntime) -> Result<(), Fail> {
    play(
        &rt,
        r#"
        # files that were never stored, removed, and stored, side by side; names of one byte, of 100, and with spaces
        clouds 4
        raw 3 m-62-0 "junk"
        put p < "abc" -> 0 Ok = generation:1
        rm p -> 0 Ok = generation:2
        put n·of·two < "12" -> 0 Ok = generation:1
        put llllllllllllllllllllllllllllllllllllllllllllllllllllllllllllllllllllllllllllllllllllllllllllllllllll -> 0 Ok = generation:1
        put Z < "y" -> 0 Ok = generation:1
        put a < "abcdefgh" -> 0 Ok = generation:1
        ls -> 0 Ok = "1·Z¶8·a¶0·llllllllllllllllllllllllllllllllllllllllllllllllllllllllllllllllllllllllllllllllllllllllllllllllllll¶2·n·of·two¶"
        recover -> 0 Ok = "settled·6¶"
        objects 52
        rm n·of·two -> 0 Ok = generation:2
        ls -> 0 Ok = "1·Z¶8·a¶0·llllllllllllllllllllllllllllllllllllllllllllllllllllllllllllllllllllllllllllllllllllllllllllllllllll¶"
        "#,
    )
}

#[test]
fn failed_deletes_change_no_answer(rt: HostRuntime) -> Result<(), Fail> {
    play(
        &rt,
        r#"
        # a delete that fails changes no answer: the metadata before, and chunks of the slots that aren't named
        clouds 4
        put a < "old" -> 0 Ok = generation:1
        failing 21: put a < "new!" -> 0 Ok = generation:2 leaving 13 12 12 13
        failing 25: put a < "new!" -> 0 Ok = generation:2 leaving 13 12 12 13
        failing 24 26 32: put a < "new!" -> 0 Ok = generation:2 leaving 15 12 12 15
        entry 24 fails leaving old
        put a < "new!" -> 0 Ok = generation:2
        objects 13
        get a -> 0 Ok = "new!"
        entry 22 fails leaving broken
        recover -> 0 Ok = "settled·1¶"
        objects 12
        failing 13 14 15 16: rm a -> 0 Ok = generation:3 leaving 8 4 4 8

        # a stop in the deletes leaves the new file
        clouds 4
        put a < "old" -> 0 Ok = generation:1
        stopped in round 5 leaving old new gone broken: put a < "new!"
        objects 22
        get a -> 0 Ok = "new!"
        stopped in round 6 leaving old new gone broken: put a < "new!"
        get a -> 0 Ok = "new!"
        without two: get a -> 0 Ok = "new!"
        "#,
    )
}

#[test]
fn one_failing_cloud_ends_recover_and_three_end_ls(rt: HostRuntime) -> Result<(), Fail> {
    play(
        &rt,
        r#"
        # a list or a look that fails ends recover; of ls, three clouds do
        clouds 4
        put a < "abcdefgh" -> 0 Ok = generation:1
        failing 1: recover -> 4 after 0 names: cloud 0 failed leaving 12 12 12 12
        failing 4 2: recover -> 4 after 0 names: cloud 1 failed leaving 12 12 12 12
        failing 7: recover -> 4 after 0 names: cloud 2 failed leaving 12 12 12 12
        failing 2: ls -> 0 Ok = "8·a¶" leaving 12 12 12 12
        failing 2 3: ls -> 0 Ok = "8·a¶" leaving 12 12 12 12
        failing 2 5: ls -> 0 Ok = "8·a¶" leaving 12 12 12 12
        failing 1 2 4: ls -> 4 after 0 names: cloud 0 failed leaving 12 12 12 12
        failing 2 6 7: ls -> 4 after 0 names: cloud 1 failed leaving 12 12 12 12
        failing 3 5: stat a -> 0 Ok = "generation·1·length·8·witnesses·yes¶" leaving 12 12 12 12
        failing 2 5 8: stat a -> 4 cloud 0 failed leaving 12 12 12 12
        "#,
    )
}

#[test]
fn removals_that_stop_or_are_refused(rt: HostRuntime) -> Result<(), Fail> {
    play(
        &rt,
        r#"
        # a removal that fails in its metadata, and one that stops there
        clouds 4
        put a < "abcdefgh" -> 0 Ok = generation:1
        failing 10: rm a -> 4 cloud 1 failed leaving 15 16 15 16
        stopped in round 2 leaving new old broken gone: rm a
        ls -> 0 Ok
        rm a -> 3 no such file
        each holds m-61-0 m-61-1 c-61-0-0 c-61-0-1
        recover -> 0 Ok = "settled·1¶"
        each holds m-61-0

        # a file without witnesses, and the last generation
        clouds 4
        seal each c-61-0-0 "ab" "ef" 0404 abae
        seal each c-61-0-1 "cd" "gh" 040c adb4
        seal all m-61-0 live:18446744073709551614
        stat a -> 0 Ok = "generation·18446744073709551614·length·8·witnesses·no¶"
        rm a -> 12 the name's generations are used up
        unchanged
        "#,
    )
}

#[test]
fn contradicting_metadata_is_told(rt: HostRuntime) -> Result<(), Fail> {
    play(
        &rt,
        r#"
        # what contradicts itself is told
        clouds 4
        put b < "abc" -> 0 Ok = generation:1
        seal 0 m-61-1 gone:3
        seal 2 m-61-1 live:3
        rm a -> 11 clouds 0 and 2 differ at generation 3
        unchanged
        recover -> 11 after 0 names: clouds 0 and 2 differ at generation 3
        unchanged
        stat a -> 11 clouds 0 and 2 differ at generation 3
        ls -> 11 after 0 names: clouds 0 and 2 differ at generation 3
        lose 2 m-61-1
        copy 0 m-61-1 to 3
        rm a -> 11 cloud 3 holds objects of cloud 0 of 4
        unchanged
        stat a -> 3 no such file
        ls -> 0 Ok = "3·b¶"
        "#,
    )
}
