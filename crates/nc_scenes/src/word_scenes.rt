//! Words that are no command, and widths. No byte of the input is read, and nothing is stored or written.

use nc_stage::play;
use std::test::Fail;

#[test]
fn words_that_are_no_command(rt: HostRuntime) -> Result<(), Fail> {
    play(
        &rt,
        r#"
        # words that are no command, and names that are none
        clouds 4
        refused: [] -> 2 usage
        refused: put -> 2 usage
        refused: get -> 2 usage
        refused: put a b -> 2 usage
        refused: get a b -> 2 usage
        refused: stow a -> 2 usage
        refused: PUT a -> 2 usage
        refused: Get a -> 2 usage
        refused: [ a] -> 2 usage
        refused: a a -> 2 usage
        refused: --budget 0 ls -> 2 usage
        refused: repair 4 -> 2 usage
        refused: restore 1 1 -> 2 usage
        refused: rm -> 2 usage
        refused: stat a b -> 2 usage
        refused: ls a -> 2 usage
        refused: recover a -> 2 usage
        refused: [rm ] -> 2 the name is empty
        refused: stat a¶b -> 2 the name has a control byte at 1
        refused: [put ] -> 2 the name is empty
        refused: [get ] -> 2 the name is empty
        refused: put a¶b -> 2 the name has a control byte at 1
        refused: get a¶b -> 2 the name has a control byte at 1
        refused: put aaaaaaaaaaaaaaaaaaaaaaaaaaaaaaaaaaaaaaaaaaaaaaaaaaaaaaaaaaaaaaaaaaaaaaaaaaaaaaaaaaaaaaaaaaaaaaaaaaaaa -> 2 the name has 101 bytes, at most 100
        refused: get aaaaaaaaaaaaaaaaaaaaaaaaaaaaaaaaaaaaaaaaaaaaaaaaaaaaaaaaaaaaaaaaaaaaaaaaaaaaaaaaaaaaaaaaaaaaaaaaaaaaa -> 2 the name has 101 bytes, at most 100
        "#,
    )
}

#[test]
fn widths_that_are_none(rt: HostRuntime) -> Result<(), Fail> {
    play(
        &rt,
        r#"
        # no cloud
        clouds 0
        refused: put a -> 2 width 0 is not 4 to 10
        refused: get a -> 2 width 0 is not 4 to 10
        refused: [stow ] -> 2 width 0 is not 4 to 10

        # one cloud
        clouds 1
        refused: put a -> 2 width 1 is not 4 to 10
        refused: get a -> 2 width 1 is not 4 to 10
        refused: [stow ] -> 2 width 1 is not 4 to 10

        # three clouds
        clouds 3
        refused: [] -> 2 width 3 is not 4 to 10
        refused: put a -> 2 width 3 is not 4 to 10
        refused: get a -> 2 width 3 is not 4 to 10
        refused: [stow ] -> 2 width 3 is not 4 to 10

        # eleven clouds
        clouds 11
        refused: put a -> 2 width 11 is not 4 to 10
        refused: get a -> 2 width 11 is not 4 to 10
        refused: [stow ] -> 2 width 11 is not 4 to 10

        # three hundred clouds
        clouds 300
        refused: put a -> 2 width 300 is not 4 to 10
        refused: get a -> 2 width 300 is not 4 to 10
        refused: [stow ] -> 2 width 300 is not 4 to 10
        "#,
    )
}
