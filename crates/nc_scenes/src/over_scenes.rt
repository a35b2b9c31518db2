//! Puts over what a name has already.

use nc_stage::play;
use std::test::Fail;

#[test]
fn nothing_is_left_of_the_version_before(rt: HostRuntime) -> Result<(), Fail> {
    play(
        &rt,
        r#"
        # a second put leaves nothing of the first one, and a third takes its places
        clouds 4
        put a < "abcdefgh" -> 0 Ok = generation:1
        each holds m-61-1 c-61-0-0 c-61-0-1
        put a < "abc" -> 0 Ok = generation:2
        each holds m-61-0 c-61-1-0 c-61-1-1
        get a -> 0 Ok = "abc"
        without two: get a -> 0 Ok = "abc"
        put a < "x" -> 0 Ok = generation:3
        each holds m-61-1 c-61-0-0 c-61-0-1
        get a -> 0 Ok = "x"
        without two: get a -> 0 Ok = "x"
        put b < "y" -> 0 Ok = generation:1
        get a -> 0 Ok = "x"

        # a short file over a long one, and a long one over it
        clouds 7
        put a < mixed:100003 -> 0 Ok = generation:1
        put a < mixed:11 -> 0 Ok = generation:2
        get a -> 0 Ok = mixed:11
        put a < mixed:100003 -> 0 Ok = generation:3
        lose 0
        lose 6
        get a -> 0 Ok = mixed:100003
        "#,
    )
}

#[test]
fn metadata_is_written_on_the_other_clouds_first(rt: HostRuntime) -> Result<(), Fail> {
    play(
        &rt,
        r#"
        # metadata on one cloud is written on the others first
        clouds 4
        seal 0 m-61-1 live:1
        seal 1 m-62-1 live:1
        seal 2 m-70-1 live:1
        seal 3 m-5a-1 live:1
        stopped in round 3 leaving old old old old: put a < "abc"
        objects 7
        payloads m-61-1 live:1 live:1 live:1 live:1
        put a < "abc" -> 0 Ok = generation:2
        objects 15
        stopped in round 3 leaving old old old old: put b < "abc"
        objects 18
        payloads m-62-1 live:1 live:1 live:1 live:1
        put b < "abc" -> 0 Ok = generation:2
        objects 26
        stopped in round 3 leaving old old old old: put p < "abc"
        objects 29
        payloads m-70-1 live:1 live:1 live:1 live:1
        put p < "abc" -> 0 Ok = generation:2
        objects 37
        stopped in round 3 leaving old old old old: put Z < "abc"
        objects 40
        payloads m-5a-1 live:1 live:1 live:1 live:1
        put Z < "abc" -> 0 Ok = generation:2
        objects 48
        without two: get a -> 0 Ok = "abc"
        without two: get Z -> 0 Ok = "abc"
        "#,
    )
}

#[test]
fn an_emptied_cloud_gets_metadata_and_the_new_file(rt: HostRuntime) -> Result<(), Fail> {
    play(
        &rt,
        r#"
        # a cloud that was emptied gets the metadata first, and then all of the new file
        clouds 4
        put a < "abcdefgh" -> 0 Ok = generation:1
        lose 1
        objects 9
        stopped in round 2 leaving new: put a < "abc"
        objects 10
        size 1 m-61-1 404
        get a -> 0 Ok = "abcdefgh"
        lose 1
        put a < "abc" -> 0 Ok = generation:2
        each holds m-61-0 c-61-1-0 c-61-1-1
        size 1 m-61-0 404
        size 1 c-61-1-0 57
        size 1 c-61-1-1 57
        without two: get a -> 0 Ok = "abc"
        "#,
    )
}

#[test]
fn chunks_go_beside_those_of_the_version_before(rt: HostRuntime) -> Result<(), Fail> {
    play(
        &rt,
        r#"
        # over a file without witnesses
        clouds 4
        seal each c-61-0-0 "ab" "ef" 0404 abae
        seal each c-61-0-1 "cd" "gh" 040c adb4
        seal all m-61-1 live:1
        put a < "abc" -> 0 Ok = generation:2
        objects 12
        payloads c-61-1-0 c8 60 98 18
        payloads c-61-1-1 e6 de ed 83
        get a -> 0 Ok = "abc"

        # over a file of an even generation
        clouds 4
        seal each c-61-0-0 "ab" "ef" 0404 abae
        seal each c-61-0-1 "cd" "gh" 040c adb4
        seal all m-61-0 live:2
        put a < "abc" -> 0 Ok = generation:3
        objects 12
        payloads c-61-1-0 e8 37 ed 56
        payloads c-61-1-1 31 a5 68 aa
        get a -> 0 Ok = "abc"

        # over a deleted file the chunks go into slot 0
        clouds 4
        seal 1 m-61-0 gone:2
        put a < "abc" -> 0 Ok = generation:3
        each holds m-61-1 c-61-0-0 c-61-0-1
        payloads c-61-0-0 e8 37 ed 56
        payloads c-61-0-1 31 a5 68 aa
        get a -> 0 Ok = "abc"
        "#,
    )
}

#[test]
fn a_file_that_does_not_come_back_is_replaced(rt: HostRuntime) -> Result<(), Fail> {
    play(
        &rt,
        r#"
        # over a file of which too few clouds are good
        clouds 4
        put a < "abcdefgh" -> 0 Ok = generation:1
        lose 0 c-61-0-0
        cut 1 c-61-0-1
        lose 2 c-61-0-1
        get a -> 5 too few clouds: 0 row 0 missing, 1 row 1 broken, 2 row 1 missing
        put a < "abc" -> 0 Ok = generation:2
        without two: get a -> 0 Ok = "abc"

        # over a file whose code stands no loss
        clouds 4
        seal all m-61-1 unsound:1
        get a -> 11 rows without clouds 0 and 1 are dependent
        put a < "abc" -> 0 Ok = generation:2
        without two: get a -> 0 Ok = "abc"
        "#,
    )
}

#[test]
fn the_highest_generation_counts(rt: HostRuntime) -> Result<(), Fail> {
    play(
        &rt,
        r#"
        # the highest generation counts, and lower ones aren't compared
        clouds 4
        seal 0 m-61-0 gone:2
        seal 1 m-61-0 live:2
        seal 2 m-61-1 live:3
        put a < "abc" -> 0 Ok = generation:4
        each holds m-61-0 c-61-1-0 c-61-1-1
        get a -> 0 Ok = "abc"

        # a generation past the last one is none
        clouds 4
        seal all m-61-1 live:18446744073709551615
        get a -> 3 no such file
        put a < "abc" -> 0 Ok = generation:1
        objects 12
        "#,
    )
}

#[test]
fn the_last_generation_has_no_next_one(rt: HostRuntime) -> Result<(), Fail> {
    play(
        &rt,
        r#"
        # the last generation has no next one
        clouds 4
        seal each c-61-0-0 "ab" "ef" 0404 abae
        seal each c-61-0-1 "cd" "gh" 040c adb4
        seal all m-61-0 live:18446744073709551614
        put a < "abc" -> 12 the name's generations are used up
        unchanged
        --budget 1 put a < "abc" -> 12 the name's generations are used up
        unchanged
        get a -> 0 Ok = "abcdefgh"

        # the last generation is stored, and found on one cloud it is written on the others
        clouds 4
        seal 2 m-61-1 gone:18446744073709551613
        put a < "abc" -> 0 Ok = generation:18446744073709551614
        objects 12
        lose 0 m-61-0
        lose 1 m-61-0
        lose 3 m-61-0
        objects 9
        put a < "x" -> 12 the name's generations are used up
        objects 12
        get a -> 0 Ok = "abc"
        "#,
    )
}

#[test]
fn a_put_ends_where_no_candidate_is_good(rt: HostRuntime) -> Result<(), Fail> {
    play(
        &rt,
        r#"
        # a put ends where no candidate is good, after the name is settled; at four clouds the first candidates of p for
        # generation 1 and of a for generation 37 aren't good, and the second are, by bench/plain.py
        clouds 4
        --budget 1 put p < "abc" -> 6 none of 1 candidates is good
        objects 0
        put p < "abc" -> 0 Ok = generation:1
        objects 12
        --budget 1 put p < "abc" -> 0 Ok = generation:2
        objects 12
        clouds 4
        seal 1 m-61-0 gone:36
        --budget 1 put a < "abc" -> 6 none of 1 candidates is good
        objects 4
        payloads m-61-0 gone:36 gone:36 gone:36 gone:36
        --budget 2 put a < "abc" -> 0 Ok = generation:37
        objects 12
        get a -> 0 Ok = "abc"
        "#,
    )
}
