//! Options, words after `--`, and faults that can't be told whole.

use nc_stage::play;
use std::test::Fail;

#[test]
fn options_choose_the_draw_and_the_workers(rt: HostRuntime) -> Result<(), Fail> {
    play(
        &rt,
        r#"
        # another seed draws another code: p's first candidate isn't good by 64 zeros, and is by this one; bench/plain.py makes
        # the same payloads
        clouds 4
        --budget 1 put p < "abc" -> 6 none of 1 candidates is good
        --budget 1 --seed 0000000000000000000000000000000000000000000000000000000000000001 put p < "abc" -> 0 Ok = generation:1
        payloads c-70-0-0 3b 5d d8 00
        payloads c-70-0-1 6d e2 12 12
        without two: get p -> 0 Ok = "abc"
        clouds 4
        put a --seed=0000000000000000000000000000000000000000000000000000000000000001 < "abcdefgh" -> 0 Ok = generation:1
        payloads c-61-0-0 69e5 fa74 baec 2794
        payloads c-61-0-1 b989 5da1 3b89 48e9
        clouds 4
        put --seed aBAbababababababababababababababababababababababababababABABABaB a < "abcdefgh" -> 0 Ok = generation:1
        payloads c-61-0-0 7010 3a16 0666 7560
        payloads c-61-0-1 ca15 1ca0 00b5 fe66

        # any number of workers makes the same
        clouds 4
        --workers 3 put a < "abcdefgh" -> 0 Ok = generation:1
        payloads c-61-0-0 442a 8bdc d47e 8f39
        payloads c-61-0-1 c758 d759 8521 a7fd
        --workers=16 get a -> 0 Ok = "abcdefgh"
        lose 1
        lose 2
        get a --workers 2 -> 0 Ok = "abcdefgh"
        restore 1 --budget 3 2 -> 0 Ok = "restored·4¶"
        --workers 3 --budget 4096 restore 1 -> 0 Ok = "restored·0¶"
        payloads c-61-0-0 442a 8bdc d47e 8f39
        payloads c-61-0-1 c758 d759 8521 a7fd
        "#,
    )
}

#[test]
fn words_after_two_dashes_are_no_options(rt: HostRuntime) -> Result<(), Fail> {
    play(
        &rt,
        r#"
        # a name that begins with a dash
        clouds 4
        put -- -x < "abc" -> 0 Ok = generation:1
        get -- -x -> 0 Ok = "abc"
        -- get -x -> 0 Ok = "abc"
        --budget 1 stat -- -x -> 0 Ok = "generation·1·length·3·witnesses·yes¶"
        get - -> 3 no such file
        ls -- -> 0 Ok = "3·-x¶"
        | get -x
        | rm -x
        batch -> 0 Ok = "616263¶" generation:2
        refused: get -x -> 2 usage
        refused: get -- -x -x -> 2 usage
        refused: get -- -x --budget 1 -> 2 usage
        refused: -- --budget 1 ls -> 2 usage

        # options that are none, or have no text that fits
        refused: -h -> 2 usage
        refused: --help -> 2 usage
        refused: ls --budgets 1 -> 2 usage
        refused: ls --budget -> 2 usage
        refused: --budget 1 ls --budget 1 -> 2 usage
        refused: --budget= ls -> 2 usage
        refused: --budget 0 ls -> 2 usage
        refused: --budget 4097 ls -> 2 usage
        refused: --budget +1 ls -> 2 usage
        refused: --workers 0 ls -> 2 usage
        refused: --workers 17 ls -> 2 usage
        refused: --seed 00 ls -> 2 usage
        refused: --seed 000000000000000000000000000000000000000000000000000000000000000g ls -> 2 usage
        refused: mill -> 2 usage
        refused: mill x -> 2 usage
        refused: mill 7 8 -> 2 usage
        refused: mill 18446744073709551616 -> 2 usage
        "#,
    )
}

#[test]
fn a_fault_that_is_not_told_whole(rt: HostRuntime) -> Result<(), Fail> {
    play(
        &rt,
        r#"
        # where no more can be told a beginning of the line was, and the code is the same
        clouds 4
        tells up to 5
        tell 2 fails
        get a -> 3 ncclo...
        tell 1 fails
        get a -> 3 ...
        tells up to 1
        tell 22 fails
        get a -> 3 nccloud: no such file...
        tells up to 1
        tell 23 fails
        get a -> 3 no such file
        tells up to 30
        tell 1 fails
        refused: get -> 2 usage
        | put a 61
        | get b
        tells up to 1
        tell 17 fails
        batch -> 3 nccloud: line 2:... = generation:1
        get a -> 0 Ok = "a"
        "#,
    )
}
