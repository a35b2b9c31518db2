//! One file is stored, another over it, and that is removed; then only its removal is left.

use crate::codes::{good_code, shown};
use nc_memory::MemFleet;
use nc_name::{Key, Name};
use nc_settle::Settled;
use nc_write::{put, remove, tidy};
use std::test::Fail;

#[test]
fn a_file_is_stored_beside_the_one_before(rt: HostRuntime) -> Result<(), Fail> {
    let alloc = rt.alloc();
    let name = Name::read("a")?;
    let good = good_code(&rt);
    let mut fleet = MemFleet::new(alloc, 4)?;
    let never = Settled { top: None };
    let once = match put(&rt, alloc, &mut fleet, &name, &never, &good, b"abcdefgh", 1) {
        Ok(once) => once,
        Err(fault) => panic!(rt; "{fault:?}"),
    };
    assert_eq!(rt; shown(&once), ([0; 10], 8, 1));
    let twice = match put(&rt, alloc, &mut fleet, &name, &once, &good, b"x", 2) {
        Ok(twice) => twice,
        Err(fault) => panic!(rt; "{fault:?}"),
    };
    assert_eq!(rt; shown(&twice), ([1, 1, 1, 1, 0, 0, 0, 0, 0, 0], 1, 2));
    assert_eq!(rt; fleet.rounds(), 6);
    let slot = 1;
    let row = 0;
    assert!(rt; fleet.object(3, &Key::Chunk { name, slot, row }).is_some());
    let gone = match remove(alloc, &mut fleet, &name, &twice) {
        Ok(gone) => gone,
        Err(fault) => panic!(rt; "{fault:?}"),
    };
    assert_eq!(rt; gone.generation(), 3);
    tidy(alloc, &mut fleet, &name, &gone)?;
    assert_eq!(rt; fleet.rounds(), 12);
    assert!(rt; fleet.object(3, &Key::Chunk { name, slot, row }).is_none());
    assert!(rt; fleet.object(0, &Key::Meta { name, slot: 0 }).is_none());
    assert!(rt; fleet.object(0, &Key::Meta { name, slot: 1 }).is_some());
    Ok(())
}
