//! When a put refuses, and what it says.

use nc_stage::play;
use std::test::Fail;

#[test]
fn an_input_or_output_that_fails_is_told(rt: HostRuntime) -> Result<(), Fail> {
    play(
        &rt,
        r#"
        # an input that fails at once, or after three bytes
        clouds 4
        read 1 fails
        put a < "abc" -> 8 the input failed
        rounds of
        read 2 fails
        put a < "abc" -> 8 the input failed
        rounds of

        # what a put says, to an output that takes some bytes a call or fails
        clouds 4
        writes up to 1
        put b -> 0 Ok = generation:1
        writes up to 5
        put p -> 0 Ok = generation:1
        writes up to 16
        put Z -> 0 Ok = generation:1
        writes up to 5
        write 2 fails
        put a < "abcdefgh" -> 9 the output failed = "gener"
        objects 48
        get a -> 0 Ok = "abcdefgh"
        "#,
    )
}

#[test]
fn what_is_no_metadata_goes(rt: HostRuntime) -> Result<(), Fail> {
    play(
        &rt,
        r#"
        # what is no metadata in slot 0 has no generation, and goes
        clouds 4
        raw 3 m-61-0 mixed:0
        put a < "abcdefgh" -> 0 Ok = generation:1
        objects 12
        size 3 m-61-1 404
        get a -> 0 Ok = "abcdefgh"
        raw 3 m-62-0 mixed:1
        put b < "abcdefgh" -> 0 Ok = generation:1
        objects 24
        size 3 m-62-1 404
        get b -> 0 Ok = "abcdefgh"
        raw 3 m-70-0 mixed:2048
        put p < "abcdefgh" -> 0 Ok = generation:1
        objects 36
        size 3 m-70-1 404
        get p -> 0 Ok = "abcdefgh"
        raw 3 m-5a-0 mixed:2049
        put Z < "abcdefgh" -> 0 Ok = generation:1
        objects 48
        size 3 m-5a-1 404
        get Z -> 0 Ok = "abcdefgh"

        # what is no metadata in slot 1 has no generation
        clouds 4
        raw 3 m-61-1 mixed:0
        put a < "abcdefgh" -> 0 Ok = generation:1
        objects 12
        size 3 m-61-1 404
        get a -> 0 Ok = "abcdefgh"
        raw 3 m-62-1 mixed:1
        put b < "abcdefgh" -> 0 Ok = generation:1
        objects 24
        size 3 m-62-1 404
        get b -> 0 Ok = "abcdefgh"
        raw 3 m-70-1 mixed:2048
        put p < "abcdefgh" -> 0 Ok = generation:1
        objects 36
        size 3 m-70-1 404
        get p -> 0 Ok = "abcdefgh"
        raw 3 m-5a-1 mixed:2049
        put Z < "abcdefgh" -> 0 Ok = generation:1
        objects 48
        size 3 m-5a-1 404
        get Z -> 0 Ok = "abcdefgh"
        "#,
    )
}

#[test]
fn a_failing_cloud_ends_a_put(rt: HostRuntime) -> Result<(), Fail> {
    play(
        &rt,
        r#"
        # a failing cloud ends the put: the least of the first step in which one fails is named
        clouds 4
        # the rounds that look
        failing 1: put a < "abcdefgh" -> 4 cloud 0 failed leaving 0 0 0 0
        failing 2: put a < "abcdefgh" -> 4 cloud 1 failed leaving 0 0 0 0
        failing 4: put a < "abcdefgh" -> 4 cloud 3 failed leaving 0 0 0 0
        failing 5: put a < "abcdefgh" -> 4 cloud 0 failed leaving 0 0 0 0
        failing 7: put a < "abcdefgh" -> 4 cloud 2 failed leaving 0 0 0 0
        failing 8: put a < "abcdefgh" -> 4 cloud 3 failed leaving 0 0 0 0
        # the rounds of writes: row 0, row 1, and the metadata
        failing 9: put a < "abcdefgh" -> 4 cloud 0 failed leaving 3 4 3 4
        failing 10: put a < "abcdefgh" -> 4 cloud 1 failed leaving 3 4 3 4
        failing 12: put a < "abcdefgh" -> 4 cloud 3 failed leaving 3 4 3 4
        failing 13: put a < "abcdefgh" -> 4 cloud 0 failed leaving 7 8 7 8
        failing 16: put a < "abcdefgh" -> 4 cloud 3 failed leaving 7 8 7 8
        failing 17: put a < "abcdefgh" -> 4 cloud 0 failed leaving 11 12 11 12
        failing 19: put a < "abcdefgh" -> 4 cloud 2 failed leaving 11 12 11 12
        # two of one round, two of both rounds that look, and two of different rounds
        failing 4 2: put a < "abcdefgh" -> 4 cloud 1 failed leaving 0 0 0 0
        failing 11 10: put a < "abcdefgh" -> 4 cloud 1 failed leaving 2 4 2 4
        failing 20 18: put a < "abcdefgh" -> 4 cloud 1 failed leaving 10 12 10 12
        failing 3 6: put a < "abcdefgh" -> 4 cloud 1 failed leaving 0 0 0 0
        failing 8 2: put a < "abcdefgh" -> 4 cloud 1 failed leaving 0 0 0 0
        failing 8 9: put a < "abcdefgh" -> 4 cloud 3 failed leaving 0 0 0 0
        failing 13 12: put a < "abcdefgh" -> 4 cloud 3 failed leaving 3 4 3 4

        # a failing cloud ends a put over a file too, here with cloud 1 emptied
        clouds 4
        put a < "abcdefgh" -> 0 Ok = generation:1
        lose 1
        # the rounds that look
        failing 2: put a < "abc" -> 4 cloud 1 failed leaving 9 9 9 9
        failing 8: put a < "abc" -> 4 cloud 3 failed leaving 9 9 9 9
        # the metadata before, on cloud 1
        failing 9: put a < "abc" -> 4 cloud 1 failed leaving 9 10 9 10
        # row 0, row 1, and the new metadata
        failing 10: put a < "abc" -> 4 cloud 0 failed leaving 13 14 13 14
        failing 17: put a < "abc" -> 4 cloud 3 failed leaving 17 18 17 18
        failing 18: put a < "abc" -> 4 cloud 0 failed leaving 21 22 21 22
        failing 20: put a < "abc" -> 4 cloud 2 failed leaving 21 22 21 22
        failing 21 20: put a < "abc" -> 4 cloud 2 failed leaving 20 22 20 22

        # a failing cloud ends a third put
        clouds 4
        put a < "abcdefgh" -> 0 Ok = generation:1
        put a < "abc" -> 0 Ok = generation:2
        failing 9: put a < "x" -> 4 cloud 0 failed leaving 15 16 15 16
        failing 16: put a < "x" -> 4 cloud 3 failed leaving 19 20 19 20
        failing 19: put a < "x" -> 4 cloud 2 failed leaving 23 24 23 24
        "#,
    )
}
