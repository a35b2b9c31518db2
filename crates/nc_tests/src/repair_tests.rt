//! The chunks of a lost cloud are made anew: which chunks that reads, what it leaves, and what it refuses.
ghost use Rattle.std.specs.Prelude.{◌≡◌};
ghost use Rattle.nc_code.specs.Codes.{repaired as repaired_code};
ghost use Rattle.nc_meta.specs.Metas.{IsLive};

use crate::codes::shown;
use crate::stored::{gets, has_chunk, lose, stored};
use nc_code::Plan;
use nc_download::How;
use nc_fetch::fetch;
use nc_memory::{MemFleet, Torn};
use nc_meta::Live;
use nc_name::{Key, Name};
use nc_nextloss::GoodCode;
use nc_repair::{RepairFault, repair_one};
use nc_search::{Mend, find_repair};
use std::process::Abort;
use std::test::Fail;

/// A plan for the loss of cloud 1, and the code after the repair by it.
fn new_code(rt: &impl Abort, live: &Live) -> (Plan, GoodCode)
    requires { IsLive 4 live.now }
    ensures { result.1.code ≡ repaired_code live.now.code 1 result.0 }
{
    let code = live.code;
    match find_repair(&code, None, 1, &[7; 32], 4096) {
        Mend::Found { plan, good, .. } => (plan, good),
        Mend::Spent(_) => panic!(rt; "a code is found"),
    }
}

#[test]
fn one_chunk_of_each_other_cloud_is_read(rt: HostRuntime) -> Result<(), Fail> {
    let alloc = rt.alloc();
    let name = Name::read("a")?;
    let mut fleet = MemFleet::new(alloc, 4)?;
    let live = stored(&rt, alloc, &mut fleet, &name);
    let (plan, good) = new_code(&rt, &live);
    assert_eq!(rt; (gets(&fleet), fleet.rounds()), ([0; 4], 3));
    let settled = match repair_one(&rt, alloc, &mut fleet, &name, &live, 1, &plan, &good, 2) {
        Ok(settled) => settled,
        Err(fault) => panic!(rt; "{fault:?}"),
    };
    assert_eq!(rt; (gets(&fleet), fleet.rounds()), ([1, 0, 1, 1], 7));
    assert_eq!(rt; shown(&settled), ([0, 1, 0, 0, 0, 0, 0, 0, 0, 0], 8, 2));
    for cloud in 0..4u8 {
        assert!(rt; fleet.object(cloud, &Key::Meta { name, slot: 0 }).is_some());
        for row in 0..2u8 {
            let (live, free) = if cloud == 1 { (1, 0) } else { (0, 1) };
            assert!(rt; has_chunk(&fleet, cloud, &name, live, row));
            assert!(rt; !has_chunk(&fleet, cloud, &name, free, row));
        }
    }
    lose(alloc, &mut fleet, 0)?;
    lose(alloc, &mut fleet, 2)?;
    let file = fetch(&rt, alloc, &mut fleet, &name, 1)?;
    assert_eq!(rt; file.bytes(), b"abcdefgh".as_slice());
    Ok(())
}

#[test]
fn a_chunk_that_is_not_good_stops_it_before_it_writes(rt: HostRuntime) -> Result<(), Fail> {
    let alloc = rt.alloc();
    let name = Name::read("a")?;
    let mut fleet = MemFleet::new(alloc, 4)?;
    let live = stored(&rt, alloc, &mut fleet, &name);
    let (plan, good) = new_code(&rt, &live);
    let row = plan.choice[2];
    let key = Key::Chunk { name, slot: 0, row };
    fleet.plant(2, &key, b"broken")?;
    let answer = repair_one(&rt, alloc, &mut fleet, &name, &live, 1, &plan, &good, 1);
    let (cloud, how) = (2, How::Broken);
    assert!(rt; matches!(answer, Err(fault) if fault == RepairFault::Damaged { cloud, row, how }));
    assert_eq!(rt; (gets(&fleet), fleet.rounds()), ([1, 0, 1, 1], 4));
    for cloud in 0..4u8 {
        assert!(rt; fleet.object(cloud, &Key::Meta { name, slot: 0 }).is_none());
        assert!(rt; !has_chunk(&fleet, cloud, &name, 1, row));
    }
    Ok(())
}

#[test]
fn a_survivor_that_fails_is_named(rt: HostRuntime) -> Result<(), Fail> {
    let alloc = rt.alloc();
    let name = Name::read("a")?;
    let mut fleet = MemFleet::new(alloc, 4)?;
    let live = stored(&rt, alloc, &mut fleet, &name);
    let (plan, good) = new_code(&rt, &live);
    fleet.refuse(15, Torn::Old)?;
    let answer = repair_one(&rt, alloc, &mut fleet, &name, &live, 1, &plan, &good, 1);
    assert!(rt; matches!(answer, Err(RepairFault::Cloud(3))));
    assert_eq!(rt; fleet.rounds(), 4);
    Ok(())
}

#[test]
fn after_the_last_generation_nothing_is_asked(rt: HostRuntime) -> Result<(), Fail> {
    let alloc = rt.alloc();
    let name = Name::read("a")?;
    let mut fleet = MemFleet::new(alloc, 4)?;
    let mut live = stored(&rt, alloc, &mut fleet, &name);
    live.generation = u64::MAX - 1;
    let (plan, good) = new_code(&rt, &live);
    let answer = repair_one(&rt, alloc, &mut fleet, &name, &live, 1, &plan, &good, 1);
    assert!(rt; matches!(answer, Err(RepairFault::Worn)));
    assert_eq!(rt; fleet.rounds(), 3);
    Ok(())
}
