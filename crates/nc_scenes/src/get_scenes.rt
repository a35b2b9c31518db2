//! What a get gives, with clouds lost, spoiled or failing.

use nc_stage::play;
use std::test::Fail;

#[test]
fn short_files_come_back_without_any_two_clouds(rt: HostRuntime) -> Result<(), Fail> {
    play(
        &rt,
        r#"
        # no byte, one, 4 and 5 come back without any two of 4 clouds
        clouds 4
        put a < mixed:0 -> 0 Ok = generation:1
        without two: get a -> 0 Ok = mixed:0
        put b < mixed:1 -> 0 Ok = generation:1
        without two: get b -> 0 Ok = mixed:1
        put p < mixed:4 -> 0 Ok = generation:1
        without two: get p -> 0 Ok = mixed:4
        put Z < mixed:5 -> 0 Ok = generation:1
        without two: get Z -> 0 Ok = mixed:5

        # no byte, one, 10 and 11 come back without any two of 7 clouds
        clouds 7
        put a < mixed:0 -> 0 Ok = generation:1
        without two: get a -> 0 Ok = mixed:0
        put b < mixed:1 -> 0 Ok = generation:1
        without two: get b -> 0 Ok = mixed:1
        put p < mixed:10 -> 0 Ok = generation:1
        without two: get p -> 0 Ok = mixed:10
        put Z < mixed:11 -> 0 Ok = generation:1
        without two: get Z -> 0 Ok = mixed:11

        # no byte, one, 16 and 17 come back without any two of 10 clouds
        clouds 10
        put a < mixed:0 -> 0 Ok = generation:1
        without two: get a -> 0 Ok = mixed:0
        put b < mixed:1 -> 0 Ok = generation:1
        without two: get b -> 0 Ok = mixed:1
        put p < mixed:16 -> 0 Ok = generation:1
        without two: get p -> 0 Ok = mixed:16
        put Z < mixed:17 -> 0 Ok = generation:1
        without two: get Z -> 0 Ok = mixed:17
        "#,
    )
}

#[test]
fn an_output_gets_the_bytes_until_it_fails(rt: HostRuntime) -> Result<(), Fail> {
    play(
        &rt,
        r#"
        # an output that takes a byte a call gets the file whole
        clouds 4
        put a < mixed:1003 -> 0 Ok = generation:1
        writes up to 1
        get a -> 0 Ok = mixed:1003

        # an output that fails has the bytes before
        clouds 4
        put a < "abcdefgh" -> 0 Ok = generation:1
        writes up to 5
        write 2 fails
        get a -> 9 the output failed = "abcde"
        unchanged
        "#,
    )
}

#[test]
fn metadata_that_is_not_whole_is_passed_over(rt: HostRuntime) -> Result<(), Fail> {
    play(
        &rt,
        r#"
        # a name without whole metadata is no file
        clouds 4
        put a < "abcdefgh" -> 0 Ok = generation:1
        cut 0 m-61-1
        cut 1 m-61-1
        cut 2 m-61-1
        cut 3 m-61-1
        get a -> 3 no such file
        get b -> 3 no such file

        # metadata of another cloud beside metadata of the clouds' own is passed over
        clouds 4
        put a < "abcdefgh" -> 0 Ok = generation:1
        copy 1 m-61-1 to 3
        get a -> 0 Ok = "abcdefgh"
        "#,
    )
}

#[test]
fn two_spoiled_clouds_are_passed_over_and_three_are_listed(rt: HostRuntime) -> Result<(), Fail> {
    play(
        &rt,
        r#"
        # two spoiled clouds are passed over: an object is gone, cut by a byte, another cloud's, or of another file, "ijklmnop";
        # then it is sealed as it was, by bench/plain.py
        clouds 4
        put a < "abcdefgh" -> 0 Ok = generation:1
        lose 0 c-61-0-0
        cut 1 c-61-0-1
        get a -> 0 Ok = "abcdefgh"
        seal 0 c-61-0-0 442a
        copy 3 c-61-0-0 to 2
        get a -> 0 Ok = "abcdefgh"
        seal 1 c-61-0-1 d759
        seal 3 c-61-0-1 9177
        get a -> 0 Ok = "abcdefgh"
        seal 2 c-61-0-0 d47e
        lose 0 c-61-0-0
        get a -> 0 Ok = "abcdefgh"
        seal 3 c-61-0-1 a7fd
        copy 3 c-61-0-0 to 2
        get a -> 0 Ok = "abcdefgh"
        seal 0 c-61-0-0 442a
        seal 2 c-61-0-0 d47e
        cut 1 c-61-0-1
        seal 3 c-61-0-1 9177
        get a -> 0 Ok = "abcdefgh"

        # more spoiled clouds are listed, each with its cause
        clouds 4
        put a < "abcdefgh" -> 0 Ok = generation:1
        lose 0 c-61-0-0
        cut 1 c-61-0-1
        copy 3 c-61-0-0 to 2
        get a -> 5 too few clouds: 0 row 0 missing, 1 row 1 broken, 2 row 0 broken
        seal 0 c-61-0-0 442a
        seal 3 c-61-0-1 9177
        get a -> 5 too few clouds: 1 row 1 broken, 2 row 0 broken, 3 row 1 changed
        seal 1 c-61-0-1 d759
        lose 0 c-61-0-0
        get a -> 5 too few clouds: 0 row 0 missing, 2 row 0 broken, 3 row 1 changed
        seal 2 c-61-0-0 d47e
        cut 1 c-61-0-1
        get a -> 5 too few clouds: 0 row 0 missing, 1 row 1 broken, 3 row 1 changed
        copy 3 c-61-0-0 to 2
        get a -> 5 too few clouds: 0 row 0 missing, 1 row 1 broken, 2 row 0 broken, 3 row 1 changed

        # each bad cloud is told by its first cause
        clouds 4
        seal all m-61-1 live:1
        seal 0 c-61-0-1 "cd"
        seal 1 c-61-0-0 "ef"
        seal 1 c-61-0-1 67
        seal 2 as 3 of 4 c-61-0-0 0404
        seal 3 c-61-0-0 040c
        get a -> 5 too few clouds: 0 row 0 missing, 1 row 1 broken, 2 row 0 broken, 3 row 0 changed
        "#,
    )
}

#[test]
fn two_failing_clouds_are_borne_and_three_are_told(rt: HostRuntime) -> Result<(), Fail> {
    play(
        &rt,
        r#"
        # a get bears two failing clouds. Entries 1 to 8 look for metadata; then each cloud that is wanted is asked for row 0, and where
        # that was good for row 1
        clouds 4
        put a < "abcdefgh" -> 0 Ok = generation:1
        get a -> 0 Ok = "abcdefgh"
        gets of chunks 2 2 0 0
        failing 1: get a -> 0 Ok = "abcdefgh" leaving 12 12 12 12
        failing 8: get a -> 0 Ok = "abcdefgh" leaving 12 12 12 12
        failing 4 6: get a -> 0 Ok = "abcdefgh" leaving 12 12 12 12
        failing 2 3 6 7: get a -> 0 Ok = "abcdefgh" leaving 12 12 12 12
        failing 9: get a -> 0 Ok = "abcdefgh" leaving 12 12 12 12
        failing 11: get a -> 0 Ok = "abcdefgh" leaving 12 12 12 12
        failing 9 10: get a -> 0 Ok = "abcdefgh" leaving 12 12 12 12
        failing 1 10: get a -> 0 Ok = "abcdefgh" leaving 12 12 12 12
        failing 11 12: get a -> 0 Ok = "abcdefgh" leaving 12 12 12 12
        entry 9 fails leaving old
        get a -> 0 Ok = "abcdefgh"
        gets of chunks 0 2 2 0
        entry 11 fails leaving old
        get a -> 0 Ok = "abcdefgh"
        gets of chunks 1 2 2 0

        # three that fail in the look end it, and the least is named; that fail later, they are listed
        clouds 4
        put a < "abcdefgh" -> 0 Ok = generation:1
        failing 1 2 3: get a -> 4 cloud 0 failed leaving 12 12 12 12
        failing 2 3 8: get a -> 4 cloud 1 failed leaving 12 12 12 12
        failing 1 2 3 5 6 7: get a -> 4 cloud 0 failed leaving 12 12 12 12
        failing 1 2 9: get a -> 5 too few clouds: 0 failed, 1 failed, 2 failed leaving 12 12 12 12
        failing 9 10 12: get a -> 5 too few clouds: 0 failed, 1 failed, 3 failed leaving 12 12 12 12
        failing 8 11 12 14: get a -> 5 too few clouds: 0 failed, 1 failed, 2 failed, 3 failed leaving 12 12 12 12
        lose 1
        failing 1: get a -> 0 Ok = "abcdefgh" leaving 9 9 9 9
        failing 1 9: get a -> 0 Ok = "abcdefgh" leaving 9 9 9 9
        failing 1 12: get a -> 5 too few clouds: 0 failed, 1 row 0 missing, 3 failed leaving 9 9 9 9
        "#,
    )
}

#[test]
fn no_more_clouds_are_asked_than_are_wanted(rt: HostRuntime) -> Result<(), Fail> {
    play(
        &rt,
        r#"
        # clouds 0 and 1 are emptied, then cloud 2 loses a chunk, and at last all are empty
        clouds 4
        put a < "abcdefgh" -> 0 Ok = generation:1
        lose 0
        lose 1
        get a -> 0 Ok = "abcdefgh"
        gets of chunks 0 0 2 2
        lose 2 c-61-0-0
        get a -> 5 too few clouds: 0 row 0 missing, 1 row 0 missing, 2 row 0 missing
        gets of chunks 0 0 0 2
        lose 2
        lose 3
        get a -> 3 no such file

        # of 7 and of 10 clouds no more are asked than are wanted
        clouds 7
        put a < mixed:11 -> 0 Ok = generation:1
        get a -> 0 Ok = mixed:11
        gets of chunks 2 2 2 2 2 0 0
        lose 0
        lose 5 c-61-0-1
        get a -> 0 Ok = mixed:11
        gets of chunks 0 2 2 2 2 1 2
        clouds 10
        put a < mixed:17 -> 0 Ok = generation:1
        get a -> 0 Ok = mixed:17
        gets of chunks 2 2 2 2 2 2 2 2 0 0
        lose 3
        get a -> 0 Ok = mixed:17
        gets of chunks 2 2 2 0 2 2 2 2 2 0
        "#,
    )
}
