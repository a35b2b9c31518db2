//! Puts and gets over clouds on which objects were placed: what other programs or later commands may leave, and what none
//! does.
//!
//! The chunks here are those of "abcdefgh" by the striped code, worked by hand from docs/FORMATS.md.

use nc_stage::play;
use std::test::Fail;

#[test]
fn metadata_stands_in_the_slot_of_its_generation(rt: HostRuntime) -> Result<(), Fail> {
    play(
        &rt,
        r#"
        # a file without witnesses is given, without any two clouds too
        clouds 4
        seal each c-61-0-0 "ab" "ef" 0404 abae
        seal each c-61-0-1 "cd" "gh" 040c adb4
        seal all m-61-1 live:1
        get a -> 0 Ok = "abcdefgh"
        without two: get a -> 0 Ok = "abcdefgh"

        # an even generation stands in slot 0
        clouds 4
        seal each c-61-0-0 "ab" "ef" 0404 abae
        seal each c-61-0-1 "cd" "gh" 040c adb4
        seal all m-61-0 live:2
        get a -> 0 Ok = "abcdefgh"

        # an odd generation in slot 0 is no metadata
        clouds 4
        seal each c-61-0-0 "ab" "ef" 0404 abae
        seal each c-61-0-1 "cd" "gh" 040c adb4
        seal all m-61-0 live:1
        get a -> 3 no such file
        put a < "abc" -> 0 Ok = generation:1
        objects 12
        get a -> 0 Ok = "abc"

        # an even generation in slot 1 is no metadata
        clouds 4
        seal 0 m-61-1 gone:2
        get a -> 3 no such file
        put a < "abc" -> 0 Ok = generation:1
        "#,
    )
}

#[test]
fn the_highest_generation_counts(rt: HostRuntime) -> Result<(), Fail> {
    play(
        &rt,
        r#"
        # a deleted file is none
        clouds 4
        seal 1 m-61-0 gone:2
        get a -> 3 no such file

        # the highest generation counts: a file that was deleted later
        clouds 4
        seal each c-61-0-0 "ab" "ef" 0404 abae
        seal each c-61-0-1 "cd" "gh" 040c adb4
        seal all m-61-1 live:1
        seal 3 m-61-0 gone:2
        get a -> 3 no such file

        # the highest generation counts: a file that was deleted before, and lower ones aren't compared
        clouds 4
        seal each c-61-0-0 "ab" "ef" 0404 abae
        seal each c-61-0-1 "cd" "gh" 040c adb4
        seal 0 m-61-0 gone:2
        seal 1 m-61-0 live:2
        seal 2 m-61-1 live:3
        get a -> 0 Ok = "abcdefgh"

        # the highest generation counts: one that two clouds hold, beside a lower one
        clouds 4
        seal 0 m-61-0 live:2
        seal 1 m-61-1 gone:3
        seal 3 m-61-1 gone:3
        get a -> 3 no such file
        "#,
    )
}

#[test]
fn a_conflict_is_told(rt: HostRuntime) -> Result<(), Fail> {
    play(
        &rt,
        r#"
        # a conflict of the highest generation is told
        clouds 4
        seal 0 m-61-1 gone:3
        seal 1 m-61-1 gone:3
        seal 2 m-61-1 live:3
        seal 3 m-61-0 gone:2
        get a -> 11 clouds 0 and 2 differ at generation 3
        put a < "abc" -> 11 clouds 0 and 2 differ at generation 3
        unchanged

        # a conflict of the one generation that there is
        clouds 4
        seal 1 m-61-0 live:2
        seal 2 m-61-0 live:2
        seal 3 m-61-0 gone:2
        get a -> 11 clouds 1 and 3 differ at generation 2
        put a < "abc" -> 11 clouds 1 and 3 differ at generation 2
        unchanged
        "#,
    )
}

#[test]
fn metadata_of_elsewhere_is_told(rt: HostRuntime) -> Result<(), Fail> {
    play(
        &rt,
        r#"
        # metadata of another cloud beside metadata of the clouds' own is told by a put alone, and before a conflict
        clouds 4
        put a < "abcdefgh" -> 0 Ok = generation:1
        copy 1 m-61-1 to 3
        get a -> 0 Ok = "abcdefgh"
        put a < "abc" -> 11 cloud 3 holds objects of cloud 1 of 4
        unchanged
        seal 0 m-61-0 gone:2
        seal 2 m-61-0 live:2
        get a -> 11 clouds 0 and 2 differ at generation 2
        put a < "abc" -> 11 cloud 3 holds objects of cloud 1 of 4
        unchanged

        # metadata of another cloud alone is told
        clouds 4
        seal 3 as 1 of 4 m-61-1 live:1
        get a -> 11 cloud 3 holds objects of cloud 1 of 4
        put a < "abc" -> 11 cloud 3 holds objects of cloud 1 of 4
        unchanged

        # metadata of another width alone is told
        clouds 5
        seal 2 as 2 of 4 m-61-1 live:1
        get a -> 11 cloud 2 holds objects of cloud 2 of 4
        put a < "abc" -> 11 cloud 2 holds objects of cloud 2 of 4
        unchanged

        # clouds in another order are told
        clouds 4
        put a < "abcdefgh" -> 0 Ok = generation:1
        rotate
        get a -> 11 cloud 0 holds objects of cloud 1 of 4
        put a < "abc" -> 11 cloud 0 holds objects of cloud 1 of 4
        unchanged
        "#,
    )
}

#[test]
fn a_code_that_stands_no_loss_is_told(rt: HostRuntime) -> Result<(), Fail> {
    play(
        &rt,
        r#"
        # a code that stands no loss is told before chunks are read
        clouds 4
        seal each c-61-0-0 "ab" "ef" 0404 abae
        seal each c-61-0-1 "cd" "gh" 040c adb4
        seal all m-61-1 unsound:1
        get a -> 11 rows without clouds 0 and 1 are dependent
        gets of chunks 0 0 0 0
        unchanged
        "#,
    )
}
