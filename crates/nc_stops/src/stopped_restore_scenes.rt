//! Restores that an entry stops, in each of their rounds: the file comes back, and the next restore ends it.

use nc_stage::play;
use std::test::Fail;

#[test]
fn a_failing_cloud_stops_a_restore(rt: HostRuntime) -> Result<(), Fail> {
    play(
        &rt,
        r#"
        # the least cloud of the first round in which one fails is named, but for the sources, which are entries 17 to 20
        clouds 4
        put a < "abcdefgh" -> 0 Ok = generation:1
        lose 1 c-61-0-0
        lose 1 c-61-0-1
        cut 2 c-61-0-1
        # the lists, the look, and the named clouds
        failing 4 2: restore 1 2 -> 4 after 0 names: cloud 1 failed leaving 10 10 10 10
        failing 7: restore 1 2 -> 4 after 0 names: cloud 2 failed leaving 10 10 10 10
        failing 8 9: restore 1 2 -> 4 after 0 names: cloud 0 failed leaving 10 10 10 10
        failing 13: restore 1 2 -> 4 after 0 names: cloud 1 failed leaving 10 10 10 10
        failing 14 15: restore 1 2 -> 4 after 0 names: cloud 2 failed leaving 10 10 10 10
        failing 16: restore 1 2 -> 4 after 0 names: cloud 2 failed leaving 10 10 10 10
        # the writes of row 0 and of row 1
        failing 21: restore 1 2 -> 4 after 0 names: cloud 1 failed leaving 10 11 10 11
        failing 22: restore 1 2 -> 4 after 0 names: cloud 1 failed leaving 11 12 11 12
        failing 23: restore 1 2 -> 4 after 0 names: cloud 2 failed leaving 12 12 11 12
        failing 23 21: restore 1 2 -> 4 after 0 names: cloud 1 failed leaving 10 11 10 11

        # the metadata before, on a cloud that was emptied
        lose 1
        failing 13: restore 1 2 -> 4 after 0 names: cloud 1 failed leaving 9 10 9 10
        entry 13 fails leaving broken
        restore 1 2 -> 4 after 0 names: cloud 1 failed
        get a -> 0 Ok = "abcdefgh"
        restore 1 2 -> 0 Ok = "restored·3¶"
        scrub -> 0 Ok
        "#,
    )
}

#[test]
fn a_restore_that_stopped_in_its_writes_is_ended(rt: HostRuntime) -> Result<(), Fail> {
    play(
        &rt,
        r#"
        # of the writes of row 0 and of row 1 some were done, and the rest is restored
        clouds 4
        put a < "abcdefgh" -> 0 Ok = generation:1
        lose 1
        lose 2
        stopped in round 7 leaving broken new: restore 1 2
        objects 10
        get a -> 0 Ok = "abcdefgh"
        restore 1 2 -> 0 Ok = "restored·3¶"
        scrub -> 0 Ok
        lose 0
        lose 3
        stopped in round 7 leaving gone old: restore 0 3
        objects 8
        get a -> 0 Ok = "abcdefgh"
        restore 0 3 -> 0 Ok = "restored·4¶"
        scrub -> 0 Ok
        lose 2
        lose 3
        stopped in round 8 leaving gone new: restore 2 3
        objects 11
        get a -> 0 Ok = "abcdefgh"
        restore 2 3 -> 0 Ok = "restored·1¶"
        scrub -> 0 Ok
        lose 1
        stopped in round 8 leaving broken: restore 1
        get a -> 0 Ok = "abcdefgh"
        restore 3 1 -> 0 Ok = "restored·1¶"
        scrub -> 0 Ok
        payloads c-61-0-0 442a 8bdc d47e 8f39
        payloads c-61-0-1 c758 d759 8521 a7fd
        stat a -> 0 Ok = "generation·1·length·8·witnesses·yes¶"
        "#,
    )
}

#[test]
fn any_entry_may_stop_a_restore(rt: HostRuntime) -> Result<(), Fail> {
    play(
        &rt,
        r#"
        # one cloud: 4 lists, 8 looks, metadata, 2 gets of it, 4 of the sources, and 2 writes
        clouds 4
        put a < "abcdefgh" -> 0 Ok = generation:1
        lose 1
        restore 1 stops at 1 to 15: get a -> 0 Ok = "abcdefgh"
        restore 1 bears 16 to 19: get a -> 0 Ok = "abcdefgh"
        restore 1 stops at 20 to 21: get a -> 0 Ok = "abcdefgh"
        restore 1 stops at 1 to 15: stat a -> 0 Ok = "generation·1·length·8·witnesses·yes¶"
        restore 1 stops at 20 to 21: stat a -> 0 Ok = "generation·1·length·8·witnesses·yes¶"

        # two: 4 gets of them, and then 4 of the sources, of which none can be spared, and 4 writes
        cut 2 c-61-0-0
        lose 2 c-61-0-1
        restore 1 2 stops at 1 to 17: get a -> 0 Ok = "abcdefgh"
        failing 18: restore 1 2 -> 5 after 0 names: too few clouds: 0 failed leaving 9 9 9 9
        failing 21: restore 1 2 -> 5 after 0 names: too few clouds: 3 failed leaving 9 9 9 9
        restore 1 2 stops at 22 to 25: get a -> 0 Ok = "abcdefgh"
        restore 1 2 -> 0 Ok = "restored·4¶"
        rounds of 4 4 1 2 2 2 2 2 2

        # one cloud: 7 lists, 14 looks, metadata, 2 gets of it, 10 of the sources, and 2 writes; the first or last of them
        clouds 7
        put a < mixed:100 -> 0 Ok = generation:1
        lose 6
        restore 6 stops at 7 to 8: get a -> 0 Ok = mixed:100
        restore 6 stops at 21 to 24: get a -> 0 Ok = mixed:100
        restore 6 bears 25 to 25: get a -> 0 Ok = mixed:100
        restore 6 bears 34 to 34: get a -> 0 Ok = mixed:100
        restore 6 stops at 35 to 36: get a -> 0 Ok = mixed:100

        # two: 4 gets of them, 10 of the sources, and 4 writes
        cut 0 c-61-0-0
        lose 0 c-61-0-1
        restore 6 0 stops at 21 to 26: get a -> 0 Ok = mixed:100
        failing 27: restore 6 0 -> 5 after 0 names: too few clouds: 1 failed leaving 18 18 18 18
        failing 36: restore 6 0 -> 5 after 0 names: too few clouds: 5 failed leaving 18 18 18 18
        restore 6 0 stops at 37 to 40: get a -> 0 Ok = mixed:100
        restore 6 0 -> 0 Ok = "restored·4¶"
        rounds of 7 7 1 2 2 5 5 2 2

        # one cloud: 10 lists, 20 looks, metadata, 2 gets of it, 16 of the sources, and 2 writes; the first or last of them
        clouds 10
        put a < mixed:100 -> 0 Ok = generation:1
        lose 4
        restore 4 stops at 10 to 11: get a -> 0 Ok = mixed:100
        restore 4 stops at 30 to 33: get a -> 0 Ok = mixed:100
        restore 4 bears 34 to 34: get a -> 0 Ok = mixed:100
        restore 4 bears 49 to 49: get a -> 0 Ok = mixed:100
        restore 4 stops at 50 to 51: get a -> 0 Ok = mixed:100

        # two: 4 gets of them, 16 of the sources, and 4 writes
        cut 9 c-61-0-0
        lose 9 c-61-0-1
        restore 4 9 stops at 30 to 35: get a -> 0 Ok = mixed:100
        failing 36: restore 4 9 -> 5 after 0 names: too few clouds: 0 failed leaving 27 27 27 27
        failing 51: restore 4 9 -> 5 after 0 names: too few clouds: 8 failed leaving 27 27 27 27
        restore 4 9 stops at 52 to 55: get a -> 0 Ok = mixed:100
        restore 4 9 -> 0 Ok = "restored·4¶"
        rounds of 10 10 1 2 2 8 8 2 2
        "#,
    )
}

#[test]
fn restores_that_are_refused(rt: HostRuntime) -> Result<(), Fail> {
    play(
        &rt,
        r#"
        # the clouds must be one or two of them
        clouds 4
        refused: restore -> 2 usage
        refused: restore 4 -> 2 usage
        refused: restore 0 4 -> 2 usage
        refused: restore 1 01 -> 2 usage
        refused: restore 0 1 2 -> 2 usage
        refused: restore +1 -> 2 usage

        # a code that stands no loss is told before chunks are read
        seal all m-61-1 unsound:1
        restore 1 -> 11 after 0 names: rows without clouds 0 and 1 are dependent
        rounds of 4 4
        unchanged

        # so is metadata that contradicts itself, or is of elsewhere
        clouds 4
        put a < "abcdefgh" -> 0 Ok = generation:1
        lose 1 c-61-0-0
        seal 0 m-61-0 gone:2
        seal 2 m-61-0 live:2
        restore 1 -> 11 after 0 names: clouds 0 and 2 differ at generation 2
        unchanged
        copy 1 m-61-1 to 3
        restore 1 -> 11 after 0 names: cloud 3 holds objects of cloud 1 of 4
        rounds of 4 4
        unchanged
        "#,
    )
}
