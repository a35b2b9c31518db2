//! The chunks of one cloud or two are made right again from the file: what that reads and writes, and what it refuses.

use crate::stored::{gets, has_chunk, lose, stored};
use nc_download::{Bad, How, Why};
use nc_fetch::fetch;
use nc_memory::MemFleet;
use nc_name::Name;
use nc_restore::{RestoreFault, restore_one};
use std::test::Fail;

#[test]
fn a_lost_cloud_is_restored_from_two_others(rt: HostRuntime) -> Result<(), Fail> {
    let alloc = rt.alloc();
    let name = Name::read("a")?;
    let mut fleet = MemFleet::new(alloc, 4)?;
    let live = stored(&rt, alloc, &mut fleet, &name);
    let answer = restore_one(&rt, alloc, &mut fleet, &name, &live, 1, None, 2);
    assert!(rt; matches!(answer, Ok(2)));
    assert_eq!(rt; (gets(&fleet), fleet.rounds()), ([2, 0, 2, 0], 9));
    assert!(rt; has_chunk(&fleet, 1, &name, 0, 0) && has_chunk(&fleet, 1, &name, 0, 1));
    let again = restore_one(&rt, alloc, &mut fleet, &name, &live, 1, None, 1);
    assert!(rt; matches!(again, Ok(0)));
    assert_eq!(rt; (gets(&fleet), fleet.rounds()), ([2, 2, 2, 0], 11));
    lose(alloc, &mut fleet, 0)?;
    lose(alloc, &mut fleet, 2)?;
    let file = fetch(&rt, alloc, &mut fleet, &name, 1)?;
    assert_eq!(rt; file.bytes(), b"abcdefgh".as_slice());
    Ok(())
}

#[test]
fn two_clouds_are_restored_while_the_other_two_are_good(rt: HostRuntime) -> Result<(), Fail> {
    let alloc = rt.alloc();
    let name = Name::read("a")?;
    let mut fleet = MemFleet::new(alloc, 4)?;
    let live = stored(&rt, alloc, &mut fleet, &name);
    lose(alloc, &mut fleet, 0)?;
    let short = restore_one(&rt, alloc, &mut fleet, &name, &live, 1, Some(2), 1);
    let (row, how) = (0, How::Missing);
    let wanted = Bad {
        cloud: 0,
        why: Why::Row { row, how },
    };
    assert!(rt;
        matches!(short, Err(RestoreFault::Short(list)) if list.items() == [wanted].as_slice())
    );
    let answer = restore_one(&rt, alloc, &mut fleet, &name, &live, 0, Some(1), 1);
    assert!(rt; matches!(answer, Ok(4)));
    Ok(())
}
