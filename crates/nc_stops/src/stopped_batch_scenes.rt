//! Batches that stop: the lines before were done, and the line that stopped was done or not.

use nc_stage::play;
use std::test::Fail;

#[test]
fn a_batch_stops_in_each_round_of_a_line(rt: HostRuntime) -> Result<(), Fail> {
    play(
        &rt,
        r#"
        # a put looks in two rounds, writes in three, of which the last one is of metadata, and deletes in three; a removal looks
        # in two, writes in one and deletes in five
        clouds 4
        put a < "old" -> 0 Ok = generation:1
        | put b 31
        | put a 6e657721
        | rm b
        batch stops in rounds 0 to 3 leaving new old gone broken: get b -> 3 no such file
        batch stops in rounds 4 to 4 leaving old gone broken broken: get b -> 3 no such file
        batch stops in rounds 4 to 4 leaving broken old gone new: get b -> 0 Ok = "1"
        batch stops in rounds 5 to 17 leaving new old gone broken: get b -> 0 Ok = "1"
        batch stops in rounds 18 to 18 leaving old old old old: get b -> 0 Ok = "1"
        batch stops in rounds 18 to 18 leaving broken new gone old: get b -> 3 no such file
        batch stops in rounds 19 to 23 leaving new old gone broken: get b -> 3 no such file

        batch stops in rounds 0 to 11 leaving broken gone new old: get a -> 0 Ok = "old"
        batch stops in rounds 12 to 12 leaving old broken gone broken: get a -> 0 Ok = "old"
        batch stops in rounds 12 to 12 leaving new old gone broken: get a -> 0 Ok = "new!"
        batch stops in rounds 13 to 23 leaving broken gone new old: get a -> 0 Ok = "new!"

        batch -> 0 Ok = generation:1 generation:2 generation:2
        rounds of 4 4 4 4 4 4 4 4 4 4 4 4 4 4 4 4 4 4 4 4 4 4 4 4
        "#,
    )
}
