//! Repairs of one lost cloud: what they read and write, what any two clouds give afterwards, and what is refused.

use nc_stage::play;
use std::test::Fail;

#[test]
fn any_two_clouds_may_be_lost_after_a_repair(rt: HostRuntime) -> Result<(), Fail> {
    play(
        &rt,
        r#"
        # two files come from one chunk of each other cloud; the repaired one counts when two others are lost
        clouds 4
        put a < "abcdefgh" -> 0 Ok = generation:1
        put b < "0123456789" -> 0 Ok = generation:1
        lose 1
        repair 1 -> 0 Ok = "repaired·2¶"
        gets of chunks 2 0 2 2
        holds 0 c-61-0-0 c-61-0-1 c-62-0-0 c-62-0-1 m-61-0 m-62-0
        holds 1 c-61-1-0 c-61-1-1 c-62-1-0 c-62-1-1 m-61-0 m-62-0
        without two: get a -> 0 Ok = "abcdefgh"
        without two: get b -> 0 Ok = "0123456789"
        stat a -> 0 Ok = "generation·2·length·8·witnesses·yes¶"
        lose 0
        lose 3
        get a -> 0 Ok = "abcdefgh"
        get b -> 0 Ok = "0123456789"

        # 7 and 10 clouds, and files of no byte and of one
        clouds 7
        put a < mixed:0 -> 0 Ok = generation:1
        put b < mixed:11 -> 0 Ok = generation:1
        lose 6
        repair 6 -> 0 Ok = "repaired·2¶"
        gets of chunks 2 2 2 2 2 2 0
        without two: get a -> 0 Ok = mixed:0
        without two: get b -> 0 Ok = mixed:11
        clouds 10
        put Z < mixed:1 -> 0 Ok = generation:1
        lose 4
        repair 4 -> 0 Ok = "repaired·1¶"
        gets of chunks 1 1 1 1 0 1 1 1 1 1
        without two: get Z -> 0 Ok = mixed:1
        "#,
    )
}

#[test]
fn a_whole_cloud_is_made_anew_and_a_spare_chunk_may_be_damaged(
    rt: HostRuntime,
) -> Result<(), Fail> {
    play(
        &rt,
        r#"
        # a cloud that isn't damaged is made anew as well
        clouds 4
        put a < "abcdefgh" -> 0 Ok = generation:1
        repair 2 -> 0 Ok = "repaired·1¶"
        gets of chunks 1 1 0 1
        objects 12
        without two: get a -> 0 Ok = "abcdefgh"

        # a chunk that the repair doesn't take may be damaged
        clouds 4
        put a < "abcdefgh" -> 0 Ok = generation:1
        lose 1
        cut 2 c-61-0-1
        repair 1 -> 0 Ok = "repaired·1¶"
        gets of chunks 1 0 1 1
        get a -> 0 Ok = "abcdefgh"
        "#,
    )
}

#[test]
fn a_repair_brings_names_to_rest(rt: HostRuntime) -> Result<(), Fail> {
    play(
        &rt,
        r#"
        # a put that stopped in its metadata is finished first
        clouds 4
        put a < "old" -> 0 Ok = generation:1
        stopped in round 4 leaving new old old old: put a < "new!"
        lose 3
        repair 3 -> 0 Ok = "repaired·1¶"
        objects 12
        without two: get a -> 0 Ok = "new!"
        stat a -> 0 Ok = "generation·3·length·4·witnesses·yes¶"

        # a vault without files, and one with a name that was deleted: there is nothing to repair
        clouds 4
        repair 0 -> 0 Ok = "repaired·0¶"
        put a < "abcdefgh" -> 0 Ok = generation:1
        rm a -> 0 Ok = generation:2
        lose 0
        repair 0 -> 0 Ok = "repaired·0¶"
        gets of chunks 0 0 0 0
        each holds m-61-0
        get a -> 3 no such file
        put a < "abc" -> 0 Ok = generation:3
        "#,
    )
}

#[test]
fn repairs_that_are_refused(rt: HostRuntime) -> Result<(), Fail> {
    play(
        &rt,
        r#"
        # without witnesses no repair is found for the striped code: the cloud holds the metadata again, and no chunk
        clouds 4
        seal each c-61-0-0 "ab" "ef" 0404 abae
        seal each c-61-0-1 "cd" "gh" 040c adb4
        seal all m-61-1 live:1
        lose 1
        repair 1 -> 6 after 0 names: none of 64 candidates is good
        gets of chunks 0 0 0 0
        holds 1 m-61-1
        get a -> 0 Ok = "abcdefgh"

        # the last generation that there is can't be repaired
        clouds 4
        seal each c-61-0-0 "ab" "ef" 0404 abae
        seal each c-61-0-1 "cd" "gh" 040c adb4
        seal all m-61-0 live:18446744073709551614
        put a < "abc" -> 12 the name's generations are used up
        unchanged
        rm a -> 12 the name's generations are used up
        unchanged
        repair 0 -> 12 after 0 names: the name's generations are used up
        unchanged
        get a -> 0 Ok = "abcdefgh"

        # the cloud must be one of them
        refused: repair 4 -> 2 usage
        refused: repair -> 2 usage
        refused: repair 1 2 -> 2 usage
        refused: repair +1 -> 2 usage
        refused: repair one -> 2 usage
        "#,
    )
}

#[test]
fn each_of_four_clouds_is_repaired_in_turn(rt: HostRuntime) -> Result<(), Fail> {
    play(
        &rt,
        r#"
        # ten repairs of 4 clouds, so that each was lost twice or more: nothing of the older versions is left
        clouds 4
        put a < mixed:103 -> 0 Ok = generation:1
        lose 0
        repair 0 -> 0 Ok = "repaired·1¶"
        get a -> 0 Ok = mixed:103
        lose 1
        repair 1 -> 0 Ok = "repaired·1¶"
        get a -> 0 Ok = mixed:103
        lose 2
        repair 2 -> 0 Ok = "repaired·1¶"
        get a -> 0 Ok = mixed:103
        lose 3
        repair 3 -> 0 Ok = "repaired·1¶"
        get a -> 0 Ok = mixed:103
        lose 0
        repair 0 -> 0 Ok = "repaired·1¶"
        get a -> 0 Ok = mixed:103
        lose 2
        repair 2 -> 0 Ok = "repaired·1¶"
        get a -> 0 Ok = mixed:103
        lose 1
        repair 1 -> 0 Ok = "repaired·1¶"
        get a -> 0 Ok = mixed:103
        lose 3
        repair 3 -> 0 Ok = "repaired·1¶"
        get a -> 0 Ok = mixed:103
        lose 2
        repair 2 -> 0 Ok = "repaired·1¶"
        get a -> 0 Ok = mixed:103
        lose 0
        repair 0 -> 0 Ok = "repaired·1¶"
        get a -> 0 Ok = mixed:103
        objects 12
        stat a -> 0 Ok = "generation·11·length·103·witnesses·yes¶"
        without two: get a -> 0 Ok = mixed:103
        "#,
    )
}

#[test]
fn each_of_seven_clouds_is_repaired_in_turn(rt: HostRuntime) -> Result<(), Fail> {
    play(
        &rt,
        r#"
        # ten repairs of 7 clouds
        clouds 7
        put a < mixed:100 -> 0 Ok = generation:1
        lose 6
        repair 6 -> 0 Ok = "repaired·1¶"
        get a -> 0 Ok = mixed:100
        lose 5
        repair 5 -> 0 Ok = "repaired·1¶"
        get a -> 0 Ok = mixed:100
        lose 4
        repair 4 -> 0 Ok = "repaired·1¶"
        get a -> 0 Ok = mixed:100
        lose 3
        repair 3 -> 0 Ok = "repaired·1¶"
        get a -> 0 Ok = mixed:100
        lose 2
        repair 2 -> 0 Ok = "repaired·1¶"
        get a -> 0 Ok = mixed:100
        lose 1
        repair 1 -> 0 Ok = "repaired·1¶"
        get a -> 0 Ok = mixed:100
        lose 0
        repair 0 -> 0 Ok = "repaired·1¶"
        get a -> 0 Ok = mixed:100
        lose 3
        repair 3 -> 0 Ok = "repaired·1¶"
        get a -> 0 Ok = mixed:100
        lose 6
        repair 6 -> 0 Ok = "repaired·1¶"
        get a -> 0 Ok = mixed:100
        lose 1
        repair 1 -> 0 Ok = "repaired·1¶"
        get a -> 0 Ok = mixed:100
        objects 21
        without two: get a -> 0 Ok = mixed:100
        "#,
    )
}

#[test]
fn each_of_ten_clouds_is_repaired_in_turn(rt: HostRuntime) -> Result<(), Fail> {
    play(
        &rt,
        r#"
        # ten repairs of 10 clouds, each once
        clouds 10
        put a < mixed:1000 -> 0 Ok = generation:1
        lose 0
        repair 0 -> 0 Ok = "repaired·1¶"
        get a -> 0 Ok = mixed:1000
        lose 9
        repair 9 -> 0 Ok = "repaired·1¶"
        get a -> 0 Ok = mixed:1000
        lose 1
        repair 1 -> 0 Ok = "repaired·1¶"
        get a -> 0 Ok = mixed:1000
        lose 8
        repair 8 -> 0 Ok = "repaired·1¶"
        get a -> 0 Ok = mixed:1000
        lose 2
        repair 2 -> 0 Ok = "repaired·1¶"
        get a -> 0 Ok = mixed:1000
        lose 7
        repair 7 -> 0 Ok = "repaired·1¶"
        get a -> 0 Ok = mixed:1000
        lose 3
        repair 3 -> 0 Ok = "repaired·1¶"
        get a -> 0 Ok = mixed:1000
        lose 6
        repair 6 -> 0 Ok = "repaired·1¶"
        get a -> 0 Ok = mixed:1000
        lose 4
        repair 4 -> 0 Ok = "repaired·1¶"
        get a -> 0 Ok = mixed:1000
        lose 5
        repair 5 -> 0 Ok = "repaired·1¶"
        get a -> 0 Ok = mixed:1000
        objects 30
        without two: get a -> 0 Ok = mixed:1000
        "#,
    )
}
