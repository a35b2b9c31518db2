//! Puts that stop between their rounds or within one, or of which an entry fails: what a later run finds.

use nc_stage::play;
use std::test::Fail;

#[test]
fn a_first_put_that_stopped_left_a_file_or_none(rt: HostRuntime) -> Result<(), Fail> {
    play(
        &rt,
        r#"
        # a put that stopped in its chunks left no file
        clouds 4
        stopped in round 2 leaving new old gone broken: put a < "abcdefgh"
        objects 2
        get a -> 3 no such file
        stopped in round 3 leaving new new old broken: put a < "abcdefgh"
        objects 7
        get a -> 3 no such file
        put a < "abc" -> 0 Ok = generation:1
        objects 12
        get a -> 0 Ok = "abc"

        # a put that stopped in its metadata left a file where one cloud has them
        clouds 4
        stopped in round 4 leaving old broken new gone: put a < "abcdefgh"
        objects 10
        get a -> 0 Ok = "abcdefgh"
        put a < "abc" -> 0 Ok = generation:2
        objects 12
        get a -> 0 Ok = "abc"

        # a put that stopped in its metadata left none where no cloud has them
        clouds 4
        stopped in round 4 leaving old broken gone broken: put a < "abcdefgh"
        objects 10
        get a -> 3 no such file
        put a < "abc" -> 0 Ok = generation:1
        get a -> 0 Ok = "abc"
        "#,
    )
}

#[test]
fn a_put_that_failed_in_its_metadata_left_a_file(rt: HostRuntime) -> Result<(), Fail> {
    play(
        &rt,
        r#"
        # a put of which a cloud fails for its metadata left a file
        clouds 4
        entry 19 fails leaving broken
        put a < "abcdefgh" -> 4 cloud 2 failed
        objects 12
        get a -> 0 Ok = "abcdefgh"
        put a < "abc" -> 0 Ok = generation:2
        objects 12
        get a -> 0 Ok = "abc"

        # a second put of which a cloud fails for its metadata left the second file
        clouds 4
        put a < "old" -> 0 Ok = generation:1
        entry 19 fails leaving old
        put a < "new!" -> 4 cloud 2 failed
        objects 23
        get a -> 0 Ok = "new!"
        put a < "x" -> 0 Ok = generation:3
        objects 12
        get a -> 0 Ok = "x"
        "#,
    )
}

#[test]
fn a_second_put_that_stopped_left_one_of_the_files(rt: HostRuntime) -> Result<(), Fail> {
    play(
        &rt,
        r#"
        # a second put that stopped in its chunks left the first file
        clouds 4
        put a < "old" -> 0 Ok = generation:1
        stopped in round 3 leaving broken new gone broken: put a < "new!"
        objects 19
        get a -> 0 Ok = "old"
        without two: get a -> 0 Ok = "old"
        put a < "x" -> 0 Ok = generation:2
        objects 12
        get a -> 0 Ok = "x"
        without two: get a -> 0 Ok = "x"

        # a second put that stopped in its metadata left the second file where one cloud has them
        clouds 4
        put a < "old" -> 0 Ok = generation:1
        stopped in round 4 leaving new old old old: put a < "new!"
        objects 21
        get a -> 0 Ok = "new!"
        put a < "x" -> 0 Ok = generation:3
        objects 12
        get a -> 0 Ok = "x"

        # a second put that stopped in its metadata left the first file where no cloud has them
        clouds 4
        put a < "old" -> 0 Ok = generation:1
        stopped in round 4 leaving broken gone old broken: put a < "new!"
        objects 22
        get a -> 0 Ok = "old"
        without two: get a -> 0 Ok = "old"
        put a < "x" -> 0 Ok = generation:2
        objects 12
        get a -> 0 Ok = "x"
        "#,
    )
}

#[test]
fn a_third_put_that_stopped_left_the_second_file(rt: HostRuntime) -> Result<(), Fail> {
    play(
        &rt,
        r#"
        # a put that stopped in writing the metadata before left the file that these are of
        clouds 4
        put a < "old" -> 0 Ok = generation:1
        stopped in round 4 leaving new old old old: put a < "new!"
        stopped in round 2 leaving broken gone new: put a < "x"
        objects 23
        get a -> 0 Ok = "new!"
        put a < "x" -> 0 Ok = generation:3
        objects 12
        get a -> 0 Ok = "x"

        # a third put that stopped left the second file
        clouds 4
        put a < "old" -> 0 Ok = generation:1
        put a < "new!" -> 0 Ok = generation:2
        stopped in round 2 leaving gone broken new old: put a < "x"
        objects 14
        get a -> 0 Ok = "new!"
        stopped in round 4 leaving broken broken gone broken: put a < "x"
        objects 23
        get a -> 0 Ok = "new!"
        without two: get a -> 0 Ok = "new!"
        put a < "x" -> 0 Ok = generation:3
        objects 12
        get a -> 0 Ok = "x"
        "#,
    )
}
