//! Batches: the lines of one input are done one after the other.

use nc_stage::play;
use std::test::Fail;

#[test]
fn lines_are_done_in_order(rt: HostRuntime) -> Result<(), Fail> {
    play(
        &rt,
        r#"
        # up to a line that isn't done
        clouds 4
        | put a 6162
        | put a 63
        | get a
        | rm a
        | get a
        batch -> 3 line 5: no such file = generation:1 generation:2 "63¶" generation:3
        each holds m-61-1

        # or that is no command
        clouds 4
        | put a 6162
        | put a 63
        | get a
        | move a b
        | rm a
        batch -> 2 batch line 4 is not a command = generation:1 generation:2 "63¶"
        each holds m-61-0 c-61-1-0 c-61-1-1
        get a -> 0 Ok = "c"

        # each act, with the text that it has alone, but for the bytes of a get
        clouds 4
        | put a 6162636465666768
        | put n of two -
        | stat a
        | ls
        | get n of two
        | rm n of two
        | scrub
        | repair 1
        | restore 0 2
        | restore 3
        | recover
        | put Z aBCdef
        | get Z
        | get a
        | get b
        | ls
        batch -> 3 line 15: no such file = generation:1 generation:1 "generation·1·length·8·witnesses·yes¶" "8·a¶0·n·of·two¶" "¶" generation:2 "repaired·1¶" "restored·0¶" "restored·0¶" "settled·2¶" generation:1 "abcdef¶" "6162636465666768¶"
        scrub -> 0 Ok
        without two: get a -> 0 Ok = "abcdefgh"
        "#,
    )
}

#[test]
fn lines_are_read_one_by_one(rt: HostRuntime) -> Result<(), Fail> {
    play(
        &rt,
        r#"
        # no bytes are no line, and the last line needs no line feed
        clouds 4
        batch -> 0 Ok
        rounds of
        batch < "put·a·6162" -> 0 Ok = generation:1
        reads up to 1
        batch < "get·a¶ls" -> 0 Ok = "6162¶2·a¶"
        batch < "ls¶" -> 0 Ok = "2·a¶"

        # an empty line is none
        batch < "¶" -> 2 batch line 1 is not a command
        batch < "ls¶¶ls¶" -> 2 batch line 2 is not a command = "2·a¶"
        batch < "ls¶¶" -> 2 batch line 2 is not a command = "2·a¶"

        # lines that are no command
        batch < "repair·4" -> 2 batch line 1 is not a command
        batch < "restore·1·1" -> 2 batch line 1 is not a command
        batch < "restore·1··2" -> 2 batch line 1 is not a command
        batch < "ls·" -> 2 batch line 1 is not a command
        batch < "·ls" -> 2 batch line 1 is not a command
        batch < "rm" -> 2 batch line 1 is not a command
        batch < "get·" -> 2 batch line 1 is not a command
        batch < "put·a" -> 2 batch line 1 is not a command
        batch < "put·a·" -> 2 batch line 1 is not a command
        batch < "put·a·616" -> 2 batch line 1 is not a command
        batch < "put··61" -> 2 batch line 1 is not a command
        batch < "PUT·a·61" -> 2 batch line 1 is not a command
        batch < "batch" -> 2 batch line 1 is not a command
        batch < "mill·7" -> 2 batch line 1 is not a command
        batch < "--budget·1·ls" -> 2 batch line 1 is not a command
        batch < 67657420ff -> 2 batch line 1 is not a command
        unchanged
        refused: batch a -> 2 usage

        # the input is read whole before its first line is done
        read 2 fails
        batch < "rm·a¶rm·a¶" -> 8 the input failed
        rounds of
        unchanged
        "#,
    )
}

#[test]
fn a_fault_is_told_with_its_line(rt: HostRuntime) -> Result<(), Fail> {
    play(
        &rt,
        r#"
        # of an act on all names, with how many of them were done
        clouds 4
        put a < "abcdefgh" -> 0 Ok = generation:1
        put b < "0123456789" -> 0 Ok = generation:1
        lose 1
        lose 2 c-62-0-0
        lose 2 c-62-0-1
        | get a
        | repair 1
        | get b
        batch -> 10 line 2: after 1 names: cloud 2 row 0 is missing = "6162636465666768¶"
        stat a -> 0 Ok = "generation·2·length·8·witnesses·yes¶"

        # of a cloud that fails: line 1 has 8 entries that look, 12 writes and 12 deletes
        clouds 4
        | put a 6162
        | put a 63
        failing 1: batch -> 4 line 1: cloud 0 failed leaving 0 0 0 0
        failing 32: batch -> 0 Ok = generation:1 generation:2 leaving 12 12 12 12
        failing 34: batch -> 4 line 2: cloud 1 failed = generation:1 leaving 12 12 12 12
        failing 43: batch -> 4 line 2: cloud 2 failed = generation:1 leaving 15 16 15 16

        # of a draw
        clouds 4
        | put a 6162
        | put p 63
        --budget 1 batch -> 6 line 2: none of 1 candidates is good = generation:1
        --budget 2 batch -> 0 Ok = generation:2 generation:1

        # of an output that fails: the act of that line was done
        clouds 4
        | put a 6162
        | put a 63
        | get a
        writes up to 1
        write 14 fails
        batch -> 9 line 2: the output failed = generation:1
        stat a -> 0 Ok = "generation·2·length·1·witnesses·yes¶"
        | get a
        | ls
        writes up to 1
        write 2 fails
        batch -> 9 line 1: the output failed = "6"
        writes up to 1
        write 6 fails
        batch -> 9 line 2: the output failed = "63¶1·"
        unchanged
        "#,
    )
}
