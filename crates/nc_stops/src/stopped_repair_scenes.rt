//! Repairs that stop, or that a damaged chunk or a failing cloud stops: the file stays, and the next repair ends it.

use nc_stage::play;
use std::test::Fail;

#[test]
fn a_damaged_chunk_stops_a_repair(rt: HostRuntime) -> Result<(), Fail> {
    play(
        &rt,
        r#"
        # a chunk that the repair needs isn't good on another cloud: nothing is written but metadata
        clouds 4
        put a < "abcdefgh" -> 0 Ok = generation:1
        lose 1
        cut 2 c-61-0-0
        cut 2 c-61-0-1
        repair 1 -> 10 after 0 names: cloud 2 row 0 is broken
        holds 1 m-61-1
        get a -> 0 Ok = "abcdefgh"
        lose 2
        repair 1 -> 10 after 0 names: cloud 2 row 0 is missing
        get a -> 0 Ok = "abcdefgh"

        # names that were done stay so: b stops it
        clouds 4
        put a < "abcdefgh" -> 0 Ok = generation:1
        put b < "0123456789" -> 0 Ok = generation:1
        lose 1
        lose 2 c-62-0-0
        lose 2 c-62-0-1
        repair 1 -> 10 after 1 names: cloud 2 row 0 is missing
        gets of chunks 2 0 1 2
        stat a -> 0 Ok = "generation·2·length·8·witnesses·yes¶"
        stat b -> 0 Ok = "generation·1·length·10·witnesses·yes¶"
        without two: get a -> 0 Ok = "abcdefgh"
        "#,
    )
}

#[test]
fn a_repair_that_stopped_left_the_file(rt: HostRuntime) -> Result<(), Fail> {
    play(
        &rt,
        r#"
        # a repair that stopped before its metadata changed no file
        clouds 4
        put a < "abcdefgh" -> 0 Ok = generation:1
        stopped in round 4 leaving new: repair 1
        objects 14
        get a -> 0 Ok = "abcdefgh"
        stat a -> 0 Ok = "generation·1·length·8·witnesses·yes¶"
        lose 0
        lose 2
        get a -> 0 Ok = "abcdefgh"

        # one that stopped in its metadata is repaired where one cloud has them, and recovers
        clouds 4
        put a < "abcdefgh" -> 0 Ok = generation:1
        lose 1
        stopped in round 6 leaving old new gone broken: repair 1
        get a -> 0 Ok = "abcdefgh"
        recover -> 0 Ok = "settled·1¶"
        stat a -> 0 Ok = "generation·2·length·8·witnesses·yes¶"
        without two: get a -> 0 Ok = "abcdefgh"
        "#,
    )
}

#[test]
fn a_failing_cloud_stops_a_repair(rt: HostRuntime) -> Result<(), Fail> {
    play(
        &rt,
        r#"
        # a cloud that fails: in a list, in a look, for its chunk, for the new chunks, in the metadata
        clouds 4
        put a < "abcdefgh" -> 0 Ok = generation:1
        lose 1
        failing 1: repair 1 -> 4 after 0 names: cloud 0 failed leaving 9 9 9 9
        failing 6: repair 1 -> 4 after 0 names: cloud 1 failed leaving 9 9 9 9
        failing 15: repair 1 -> 4 after 0 names: cloud 2 failed leaving 10 10 10 10
        failing 17: repair 1 -> 4 after 0 names: cloud 1 failed leaving 10 11 10 11
        failing 18: repair 1 -> 4 after 0 names: cloud 1 failed leaving 11 12 11 12
        failing 22: repair 1 -> 4 after 0 names: cloud 3 failed leaving 15 16 15 16
        entry 22 fails leaving old
        repair 1 -> 4 after 0 names: cloud 3 failed
        get a -> 0 Ok = "abcdefgh"
        repair 1 -> 0 Ok = "repaired·1¶"
        stat a -> 0 Ok = "generation·3·length·8·witnesses·yes¶"
        without two: get a -> 0 Ok = "abcdefgh"
        "#,
    )
}

#[test]
fn a_repair_may_stop_before_its_new_chunks(rt: HostRuntime) -> Result<(), Fail> {
    play(
        &rt,
        r#"
        # the file is whole after each stop, and the next repair succeeds, after which any two clouds may be lost
        clouds 4
        put a < "abcdefgh" -> 0 Ok = generation:1

        # in the looks
        lose 1
        stopped in round 0 leaving old: repair 1
        get a -> 0 Ok = "abcdefgh"
        repair 1 -> 0 Ok = "repaired·1¶"
        without two: get a -> 0 Ok = "abcdefgh"
        lose 1
        stopped in round 1 leaving old: repair 1
        get a -> 0 Ok = "abcdefgh"
        repair 1 -> 0 Ok = "repaired·1¶"
        without two: get a -> 0 Ok = "abcdefgh"

        # in the metadata before, written to the lost cloud again
        lose 1
        stopped in round 2 leaving broken: repair 1
        get a -> 0 Ok = "abcdefgh"
        repair 1 -> 0 Ok = "repaired·1¶"
        without two: get a -> 0 Ok = "abcdefgh"

        # in the reads of the chunks
        lose 1
        stopped in round 3 leaving old: repair 1
        get a -> 0 Ok = "abcdefgh"
        repair 1 -> 0 Ok = "repaired·1¶"
        without two: get a -> 0 Ok = "abcdefgh"
        objects 12
        "#,
    )
}

#[test]
fn a_repair_may_stop_in_any_of_its_writes(rt: HostRuntime) -> Result<(), Fail> {
    play(
        &rt,
        r#"
        # the file is whole after each stop, and the next repair succeeds, after which any two clouds may be lost
        clouds 4
        put a < "abcdefgh" -> 0 Ok = generation:1

        # in the new chunks
        lose 1
        stopped in round 4 leaving broken: repair 1
        get a -> 0 Ok = "abcdefgh"
        repair 1 -> 0 Ok = "repaired·1¶"
        without two: get a -> 0 Ok = "abcdefgh"
        lose 1
        stopped in round 5 leaving gone: repair 1
        get a -> 0 Ok = "abcdefgh"
        repair 1 -> 0 Ok = "repaired·1¶"
        without two: get a -> 0 Ok = "abcdefgh"

        # in the metadata: of the file as it was, or as it is repaired
        lose 1
        stopped in round 6 leaving old broken gone broken: repair 1
        get a -> 0 Ok = "abcdefgh"
        repair 1 -> 0 Ok = "repaired·1¶"
        without two: get a -> 0 Ok = "abcdefgh"
        lose 1
        stopped in round 6 leaving broken old new gone: repair 1
        get a -> 0 Ok = "abcdefgh"
        repair 1 -> 0 Ok = "repaired·1¶"
        without two: get a -> 0 Ok = "abcdefgh"
        objects 12
        "#,
    )
}

#[test]
fn a_repair_may_stop_in_any_of_its_deletes(rt: HostRuntime) -> Result<(), Fail> {
    play(
        &rt,
        r#"
        # the file is whole after each stop, and the next repair succeeds, after which any two clouds may be lost
        clouds 4
        put a < "abcdefgh" -> 0 Ok = generation:1

        # in the deletes of the metadata before, and of the chunks that the lost cloud had
        lose 1
        stopped in round 7 leaving old gone new broken: repair 1
        get a -> 0 Ok = "abcdefgh"
        repair 1 -> 0 Ok = "repaired·1¶"
        without two: get a -> 0 Ok = "abcdefgh"
        lose 1
        stopped in round 8 leaving broken: repair 1
        get a -> 0 Ok = "abcdefgh"
        repair 1 -> 0 Ok = "repaired·1¶"
        without two: get a -> 0 Ok = "abcdefgh"
        lose 1
        stopped in round 9 leaving old: repair 1
        get a -> 0 Ok = "abcdefgh"
        repair 1 -> 0 Ok = "repaired·1¶"
        without two: get a -> 0 Ok = "abcdefgh"
        objects 12
        "#,
    )
}
