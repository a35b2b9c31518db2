//! A fleet in memory: what refused and stopped writes, lists and losses leave.
ghost use Rattle.std.specs.Prelude.{◌≡◌, ◌<◌};
ghost use Rattle.nc_name.specs.Keys.{Slots};
ghost use Rattle.nc_memory.specs.Memory.{width_of};

use crate::keys::{chunk, meta};
use nc_cloud::{Answer, Ask, CloudError, Done, Erase, Fleet, Job};
use nc_frame::seal;
use nc_memory::{Damage, KeyFate, KeyFates, MemFleet, Torn};
use nc_name::{Key, Memory, Name};
use std::alloc::Global;
use std::test::Fail;

/// Puts a frame of this payload on a cloud, in a round of its own.
fn put(
    alloc: Global,
    fleet: &mut MemFleet,
    cloud: u8,
    key: &Key,
    payload: &[u8],
) -> Result<Done, Memory>
    requires below { cloud < width_of fleet.old }
    requires slots { Slots key.now }
    ensures { width_of fleet.new ≡ width_of fleet.old }
{
    let bytes = seal(alloc, cloud, 4, key, payload)?;
    let mut jobs = [Job {
        cloud,
        key: *key,
        bytes,
        done: Done::Waiting,
    }];
    fleet.put_round(&mut jobs);
    Ok(jobs[0].done)
}

/// Deletes an object, in a round of its own.
fn delete(fleet: &mut MemFleet, cloud: u8, key: &Key) -> Done
    requires below { cloud < width_of fleet.old }
    ensures { width_of fleet.new ≡ width_of fleet.old }
{
    let mut erases = [Erase {
        cloud,
        key: *key,
        done: Done::Waiting,
    }];
    fleet.delete_round(&mut erases);
    erases[0].done
}

/// Asks a cloud for at most this much of an object, in a round of its own.
fn get(fleet: &mut MemFleet, cloud: u8, key: &Key, most: u64) -> Ask
    requires below { cloud < width_of fleet.old }
    ensures { width_of fleet.new ≡ width_of fleet.old }
{
    let mut asks = [Ask {
        cloud,
        key: *key,
        most,
        answer: Answer::Waiting,
    }];
    fleet.get_round(&mut asks);
    let [ask] = asks;
    ask
}

fn gave(ask: &Ask, len: usize) -> bool {
    match &ask.answer {
        Answer::Bytes(bytes) => bytes.bytes().len() == len,
        _ => false,
    }
}

fn len_of(fleet: &MemFleet, cloud: u8, key: &Key) -> Option<usize> {
    match fleet.object(cloud, key) {
        None => None,
        Some(bytes) => Some(bytes.len()),
    }
}

#[test]
fn a_put_is_read_back_but_where_the_get_is_refused(rt: HostRuntime) -> Result<(), Fail> {
    let key = chunk(Name::read("a")?, 0);
    let mut fleet = MemFleet::new(rt.alloc(), 4)?;
    fleet.refuse(2, Torn::Old)?;
    assert_eq!(rt; put(rt.alloc(), &mut fleet, 1, &key, &[4, 4])?, Done::Ok);
    assert!(rt; matches!(get(&mut fleet, 1, &key, 58).answer, Answer::Failed));
    assert!(rt; gave(&get(&mut fleet, 1, &key, 58), 58));
    assert!(rt; matches!(get(&mut fleet, 1, &key, 57).answer, Answer::Long));
    assert!(rt; matches!(get(&mut fleet, 2, &key, 58).answer, Answer::Absent));
    Ok(())
}

/// How long an object of 58 bytes is after a put of 59 that left it so, and after such a delete.
fn lens_left() -> [(Torn, Option<usize>, Option<usize>); 4] {
    [
        (Torn::Old, Some(58), Some(58)),
        (Torn::New, Some(59), None),
        (Torn::Gone, None, None),
        // 59 bytes without the last, and none
        (Torn::Broken, Some(58), Some(0)),
    ]
}

/// A put of 59 bytes on cloud 1, or a delete there.
fn change(alloc: Global, fleet: &mut MemFleet, key: &Key, deletes: bool) -> Result<Done, Memory>
    requires below { 1 < width_of fleet.old }
    requires slots { Slots key.now }
    ensures { width_of fleet.new ≡ width_of fleet.old }
{
    if deletes {
        return Ok(delete(fleet, 1, key));
    }
    put(alloc, fleet, 1, key, &[5, 6, 7])
}

/// How long an object of 58 bytes is after a write that was told to fail so.
fn len_after(
    alloc: Global,
    key: &Key,
    deletes: bool,
    outcome: Torn,
) -> Result<Option<usize>, Memory>
    requires slots { Slots key.now }
{
    let mut fleet = MemFleet::new(alloc, 4)?;
    fleet.refuse(2, outcome)?;
    put(alloc, &mut fleet, 1, key, &[4, 4])?;
    match change(alloc, &mut fleet, key, deletes)? {
        Done::Failed => Ok(len_of(&fleet, 1, key)),
        _ => Err(Memory),
    }
}

/// How long an object of 58 bytes is where the write after it was stopped so, whatever came later.
fn len_stopped(alloc: Global, key: &Key, deletes: bool, fate: Torn) -> Result<Option<usize>, Memory>
    requires slots { Slots key.now }
{
    let mut fleet = MemFleet::new(alloc, 4)?;
    put(alloc, &mut fleet, 1, key, &[4, 4])?;
    change(alloc, &mut fleet, key, deletes)?;
    put(alloc, &mut fleet, 1, key, &[8])?;
    if fleet.rounds() < 3 || fleet.length() != 3 || fleet.entries(1) != 1 {
        return Err(Memory);
    }
    let left = fleet.stopped(1, &[fate])?;
    Ok(len_of(&left, 1, key))
}

#[test]
fn refused_and_stopped_writes_leave_what_was_told(rt: HostRuntime) -> Result<(), Fail> {
    let key = chunk(Name::read("a")?, 0);
    for (outcome, put, deleted) in lens_left() {
        assert_eq!(rt; len_after(rt.alloc(), &key, false, outcome)?, put);
        assert_eq!(rt; len_after(rt.alloc(), &key, true, outcome)?, deleted);
        assert_eq!(rt; len_stopped(rt.alloc(), &key, false, outcome)?, put);
        assert_eq!(rt; len_stopped(rt.alloc(), &key, true, outcome)?, deleted);
    }
    Ok(())
}

#[test]
fn a_list_tells_what_puts_and_deletes_left(rt: HostRuntime) -> Result<(), Fail> {
    let a = meta(Name::read("a")?);
    let b = Name::read("b")?;
    let mut fleet = MemFleet::new(rt.alloc(), 4)?;
    fleet.refuse(4, Torn::Broken)?;
    fleet.refuse(6, Torn::New)?;
    put(rt.alloc(), &mut fleet, 2, &a, &[4, 4])?;
    put(rt.alloc(), &mut fleet, 2, &chunk(b, 1), &[4, 4])?;
    put(rt.alloc(), &mut fleet, 2, &chunk(b, 0), &[4, 4])?;
    // there is none to break
    assert_eq!(rt; delete(&mut fleet, 2, &meta(b)), Done::Failed);
    assert_eq!(rt; delete(&mut fleet, 2, &chunk(b, 1)), Done::Ok);
    assert!(rt; matches!(fleet.list(2), Err(CloudError::Failed)));
    let list = fleet.list(2)?;
    let keys = list.items();
    assert_eq!(rt; keys.len(), 2);
    // c-62-0-0, m-61-0
    assert!(rt; keys[0].is_same(&chunk(b, 0)));
    assert!(rt; keys[1].is_same(&a));
    assert_eq!(rt; fleet.rounds(), 5);
    assert_eq!(rt; fleet.length(), 7);
    Ok(())
}

/// How long these are after a loss of cloud 1: there an object of two bytes and one of none, and one of two bytes on
/// cloud 2.
fn lens_lost(
    alloc: Global,
    key: &Key,
    empty: &Key,
    rest: Torn,
) -> Result<[Option<usize>; 3], Memory> {
    let mut fleet = MemFleet::new(alloc, 4)?;
    fleet.plant(1, key, &[4, 4])?;
    fleet.plant(1, empty, &[])?;
    fleet.plant(2, key, &[4, 4])?;
    let except = KeyFates::new(alloc);
    fleet.lose(1, &Damage { rest, except })?;
    if fleet.length() != 4 || fleet.rounds() != 0 {
        return Err(Memory);
    }
    Ok([
        len_of(&fleet, 1, key),
        len_of(&fleet, 1, empty),
        len_of(&fleet, 2, key),
    ])
}

#[test]
fn a_loss_leaves_objects_in_its_fate_and_no_other_cloud(rt: HostRuntime) -> Result<(), Fail> {
    let key = meta(Name::read("a")?);
    let empty = chunk(Name::read("b")?, 1);
    for (rest, two, none) in [
        (Torn::Old, Some(2), Some(0)),
        (Torn::New, Some(2), Some(0)),
        (Torn::Gone, None, None),
        (Torn::Broken, Some(1), Some(0)),
    ] {
        let lens = lens_lost(rt.alloc(), &key, &empty, rest)?;
        assert_eq!(rt; lens[0], two);
        assert_eq!(rt; lens[1], none);
        assert_eq!(rt; lens[2], Some(2));
    }
    Ok(())
}

#[test]
fn a_loss_leaves_some_objects_otherwise_than_the_rest(rt: HostRuntime) -> Result<(), Fail> {
    let a = meta(Name::read("a")?);
    let b = Name::read("b")?;
    let mut fleet = MemFleet::new(rt.alloc(), 4)?;
    fleet.plant(2, &a, &[4, 4])?;
    fleet.plant(2, &chunk(b, 0), &[4, 4, 4])?;
    fleet.plant(2, &chunk(b, 1), &[4, 4, 4, 4])?;
    let mut except = KeyFates::new(rt.alloc());
    for (key, fate) in [
        (a, Torn::Old),
        (chunk(b, 1), Torn::Broken),
        // the first counts
        (chunk(b, 1), Torn::Old),
        // there is none
        (meta(b), Torn::Old),
    ] {
        except.push(KeyFate { key, fate })?;
    }
    let rest = Torn::Gone;
    fleet.lose(2, &Damage { rest, except })?;
    let list = fleet.list(2)?;
    let keys = list.items();
    assert_eq!(rt; keys.len(), 2);
    // c-62-0-1, m-61-0
    assert!(rt; keys[0].is_same(&chunk(b, 1)));
    assert!(rt; keys[1].is_same(&a));
    assert_eq!(rt; len_of(&fleet, 2, &chunk(b, 1)), Some(3));
    assert_eq!(rt; len_of(&fleet, 2, &a), Some(2));
    Ok(())
}

#[test]
fn rounds_and_entries_go_on_after_a_loss(rt: HostRuntime) -> Result<(), Fail> {
    let key = chunk(Name::read("a")?, 0);
    let mut fleet = MemFleet::new(rt.alloc(), 4)?;
    fleet.refuse(3, Torn::Old)?;
    put(rt.alloc(), &mut fleet, 1, &key, &[4, 4])?;
    assert!(rt; gave(&get(&mut fleet, 1, &key, 58), 58));
    let rest = Torn::Broken;
    let except = KeyFates::new(rt.alloc());
    fleet.lose(1, &Damage { rest, except })?;
    assert_eq!(rt;
        put(rt.alloc(), &mut fleet, 1, &key, &[5, 6, 7])?,
        Done::Failed
    );
    assert_eq!(rt; fleet.gets(1), 1);
    assert_eq!(rt; fleet.rounds(), 3);
    assert_eq!(rt; fleet.length(), 4);
    // the loss came before the last round
    let before = fleet.stopped(1, &[])?;
    assert_eq!(rt; len_of(&before, 1, &key), Some(58));
    let after = fleet.stopped(2, &[Torn::Old])?;
    assert_eq!(rt; len_of(&after, 1, &key), Some(57));
    Ok(())
}
