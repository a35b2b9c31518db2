ghost use Rattle.std.specs.Prelude.{◌≡◌, ◌<◌, IfOk};
ghost use Rattle.nc_memory.specs.Memory.{width_of};
ghost use Rattle.nc_drive.specs.Driving.{EventFits};

use crate::driving::drive;
use crate::event::{Event, Fates, WordList};
use crate::outcome::Outcome;
use nc_memory::{Damage, KeyFates, MemFleet, Torn};
use nc_name::Blob;
use std::alloc::Global;
use std::test::Fail;
use std::thread::Threads;

// ---- events

/// The words of a text, between its spaces.
fn words_of(alloc: Global, text: &str) -> Result<WordList, Fail> {
    let mut words = WordList::new(alloc);
    for word in text.split(' ') {
        words.push(String::from_str(alloc, word)?)?;
    }
    Ok(words)
}

fn run(alloc: Global, words: &str, input: &[u8]) -> Result<Event, Fail>
    ensures { IfOk result (EventFits 4) }
{
    let words = words_of(alloc, words)?;
    let input = Blob::from_slice(alloc, input)?;
    Ok(Event::Run { words, input })
}

fn stop(alloc: Global, words: &str, input: &[u8], round: u64, fates: &[Torn]) -> Result<Event, Fail>
    ensures { IfOk result (EventFits 4) }
{
    let words = words_of(alloc, words)?;
    let input = Blob::from_slice(alloc, input)?;
    let mut all = Fates::new(alloc);
    for fate in fates {
        all.push(*fate)?;
    }
    Ok(Event::Stop {
        words,
        input,
        round,
        fates: all,
    })
}

/// The loss of a cloud.
fn lose(alloc: Global, cloud: u8, rest: Torn) -> Event
    requires { cloud < 4 }
    ensures { EventFits 4 result }
{
    let except = KeyFates::new(alloc);
    Event::Lose {
        cloud,
        damage: Damage { rest, except },
    }
}

/// What becomes of an event.
fn after<R: Threads + Sync>(
    rt: &R,
    alloc: Global,
    fleet: &mut MemFleet,
    event: Event,
) -> Result<Outcome, Fail>
    requires wide { width_of fleet.old ≡ 4 }
    requires fits { EventFits 4 event }
    ensures { IfOk result (λ outcome. width_of fleet.new ≡ 4) }
{
    let outcomes = drive(rt, alloc, fleet, &[event])?;
    match outcomes.into_items().pop() {
        Some(outcome) => Ok(outcome),
        None => Err(Fail::new("an event without an outcome")),
    }
}

/// What a get prints, or no bytes where there is no file.
fn got<R: Threads + Sync>(
    rt: &R,
    alloc: Global,
    fleet: &mut MemFleet,
    words: &str,
) -> Result<Blob, Fail>
    requires wide { width_of fleet.old ≡ 4 }
    ensures { IfOk result (λ bytes. width_of fleet.new ≡ 4) }
{
    let outcome = after(rt, alloc, fleet, run(alloc, words, b"")?)?;
    match outcome.status.code() {
        0 | 3 => Ok(outcome.out),
        _ => Err(Fail::new("a get that is stopped")),
    }
}

// ---- two histories

/// A put over an older one, stopped once the first cloud has its metadata.
fn stopped_put<R: Threads + Sync>(rt: &R, alloc: Global, fleet: &mut MemFleet) -> Result<bool, Fail>
    requires wide { width_of fleet.old ≡ 4 }
    ensures { IfOk result (λ good. width_of fleet.new ≡ 4) }
{
    let first = after(rt, alloc, fleet, run(alloc, "put a", b"old")?)?;
    let fates = [Torn::New, Torn::Old, Torn::Old];
    let second = after(rt, alloc, fleet, stop(alloc, "put a", b"new!", 4, &fates)?)?;
    let told = first.out.bytes() == b"generation 1\n".as_slice() && first.done == 1;
    let quiet = second.status.code() == 0 && second.out.bytes().is_empty() && second.done == 0;
    Ok(told && quiet && first.mark < second.mark)
}

#[test]
fn a_loss_before_it_is_settled_brings_the_old_value_back(rt: HostRuntime) -> Result<(), Fail> {
    let alloc = rt.alloc();
    let mut fleet = MemFleet::new(alloc, 4)?;
    assert!(rt; stopped_put(&rt, alloc, &mut fleet)?);
    let lost = after(&rt, alloc, &mut fleet, lose(alloc, 0, Torn::Gone))?;
    assert!(rt; lost.status.code() == 0 && lost.done == 0);
    let recovered = after(&rt, alloc, &mut fleet, run(alloc, "recover", b"")?)?;
    assert!(rt; recovered.status.code() == 0 && recovered.done == 1);
    let bytes = got(&rt, alloc, &mut fleet, "get a")?;
    assert_eq!(rt; bytes.bytes(), b"old".as_slice());
    Ok(())
}

#[test]
fn a_loss_after_it_is_settled_leaves_the_new_value(rt: HostRuntime) -> Result<(), Fail> {
    let alloc = rt.alloc();
    let mut fleet = MemFleet::new(alloc, 4)?;
    assert!(rt; stopped_put(&rt, alloc, &mut fleet)?);
    let recovered = after(&rt, alloc, &mut fleet, run(alloc, "recover", b"")?)?;
    assert!(rt; recovered.out.bytes() == b"settled 1\n".as_slice());
    let lost = after(&rt, alloc, &mut fleet, lose(alloc, 0, Torn::Gone))?;
    assert!(rt; recovered.mark < lost.mark);
    let bytes = got(&rt, alloc, &mut fleet, "get a")?;
    assert_eq!(rt; bytes.bytes(), b"new!".as_slice());
    Ok(())
}

#[test]
fn a_run_without_the_round_is_a_run(rt: HostRuntime) -> Result<(), Fail> {
    let alloc = rt.alloc();
    let mut fleet = MemFleet::new(alloc, 4)?;
    let events = [
        run(alloc, "put a", b"abc")?,
        stop(alloc, "get a", b"", 1000, &[])?,
        stop(alloc, "restore 0 1", b"", 1000, &[])?,
        stop(alloc, "scrub", b"", 1000, &[])?,
        stop(alloc, "look a", b"", 0, &[])?,
        stop(alloc, "put a", b"new!", 0, &[Torn::New])?,
        run(alloc, "--workers 2 get -- a", b"")?,
    ];
    let outcomes = drive(&rt, alloc, &mut fleet, &events)?;
    let mut told = Vec::new(alloc);
    for outcome in outcomes.items() {
        told.push((
            outcome.status.code(),
            outcome.out.bytes().len(),
            outcome.done,
        ))?;
    }
    assert_eq!(rt;
        told.as_slice(),
        [
            (0, 13, 1),
            (0, 3, 1),
            (0, 11, 1),
            (0, 0, 1),
            (2, 0, 0),
            (0, 0, 0),
            (0, 3, 1)
        ]
        .as_slice()
    );
    Ok(())
}

#[test]
fn the_lines_of_a_batch_are_acts_in_their_order(rt: HostRuntime) -> Result<(), Fail> {
    let alloc = rt.alloc();
    let mut fleet = MemFleet::new(alloc, 4)?;
    let lines = b"put a 616263\nput b -\nget a\nrm b\nls";
    let outcome = after(&rt, alloc, &mut fleet, run(alloc, "batch", lines)?)?;
    assert!(rt; outcome.status.code() == 0 && outcome.done == 5);
    let told = b"generation 1\ngeneration 1\n616263\ngeneration 2\n3 a\n";
    assert_eq!(rt; outcome.out.bytes(), told.as_slice());
    Ok(())
}

#[test]
fn a_batch_without_the_round_ends_at_a_line_that_asks_for_nothing(
    rt: HostRuntime,
) -> Result<(), Fail> {
    let alloc = rt.alloc();
    let mut fleet = MemFleet::new(alloc, 4)?;
    let whole = stop(alloc, "batch", b"put a 61\nget a\n", 1000, &[])?;
    let outcome = after(&rt, alloc, &mut fleet, whole)?;
    assert_eq!(rt; outcome.out.bytes(), b"generation 1\n61\n".as_slice());
    let broken = stop(alloc, "batch", b"get a\nlook a\nrm a\n", 1000, &[])?;
    let outcome = after(&rt, alloc, &mut fleet, broken)?;
    assert!(rt; outcome.status.code() == 2 && outcome.done == 1);
    Ok(())
}

// ---- histories by chance, and a plain model of what a get may give after them

/// An act that gives a name a value: bytes, or no bytes for none. It was answered Ok, or only begun.
#[derive(Drop)]
struct Gave {
    name: u8,
    value: Vec<u8>,
    done: bool,
}

/// What is known of a history from its outcomes: what was given, and which clouds are damaged.
#[derive(Drop)]
struct Known {
    acts: Vec<Gave>,
    damaged: Vec<u8>,
}

/// The name has this value by the last act that was done, or one that was begun since.
fn is_allowed(acts: &[Gave], name: u8, value: &[u8]) -> bool {
    for act in acts.iter().rev() {
        if act.name == name {
            if act.value.as_slice() == value {
                return true;
            }
            if act.done {
                return false;
            }
        }
    }
    value.is_empty()
}

/// The next number of a linear congruence.
fn next(state: &mut u32) -> u8 {
    *state = state.wrapping_mul(1_664_525).wrapping_add(1_013_904_223);
    state.to_be_bytes()[0]
}

fn fate(state: &mut u32) -> Torn {
    match next(state) % 4 {
        0 => Torn::Old,
        1 => Torn::New,
        2 => Torn::Gone,
        _ => Torn::Broken,
    }
}

/// One of three names.
fn letter(name: u8) -> &'static str {
    match name {
        0 => "a",
        1 => "b",
        _ => "c",
    }
}

/// 1 to 4 bytes.
fn some_bytes(alloc: Global, state: &mut u32) -> Result<Vec<u8>, Fail> {
    let mut bytes = Vec::new(alloc);
    for _ in 0..1 + next(state) % 4 {
        bytes.push(next(state))?;
    }
    Ok(bytes)
}

/// A put, or a removal where the value has no bytes; stopped in one of its rounds or not.
fn giving(
    alloc: Global,
    state: &mut u32,
    stopped: bool,
    name: u8,
    value: &[u8],
) -> Result<Event, Fail>
    ensures { IfOk result (EventFits 4) }
{
    let word = if value.is_empty() { "rm" } else { "put" };
    let words = format!(in alloc; "{word} {}", letter(name))?;
    if !stopped {
        return run(alloc, words.as_str(), value);
    }
    let round = u64::from(next(state) % 8);
    let fates = [fate(state), fate(state), fate(state), fate(state)];
    stop(alloc, words.as_str(), value, round, &fates)
}

/// A name and a value for it by chance.
fn some_gave(alloc: Global, state: &mut u32) -> Result<Gave, Fail> {
    let name = next(state) % 3;
    let value = if next(state) < 64 {
        Vec::new(alloc)
    } else {
        some_bytes(alloc, state)?
    };
    Ok(Gave {
        name,
        value,
        done: false,
    })
}

/// A hexadecimal digit.
fn digit(value: u8) -> u8 {
    if value < 10 {
        b'0'.wrapping_add(value)
    } else {
        b'a'.wrapping_add(value).wrapping_sub(10)
    }
}

/// The line of a batch that gives a name a value.
fn line_of(alloc: Global, gave: &Gave) -> Result<Vec<u8>, Fail> {
    let word = if gave.value.is_empty() { "rm" } else { "put" };
    let words = format!(in alloc; "{word} {}", letter(gave.name))?;
    let mut line = Vec::new(alloc);
    line.extend_from_slice(words.as_str().as_bytes())?;
    if !gave.value.is_empty() {
        line.push(b' ')?;
    }
    for byte in gave.value.as_slice() {
        line.push(digit(*byte / 16))?;
        line.push(digit(*byte % 16))?;
    }
    line.push(b'\n')?;
    Ok(line)
}

/// A batch of two lines that give values, stopped in one of its rounds or not.
fn batching<R: Threads + Sync>(
    rt: &R,
    alloc: Global,
    fleet: &mut MemFleet,
    state: &mut u32,
    acts: &mut Vec<Gave>,
) -> Result<bool, Fail>
    requires wide { width_of fleet.old ≡ 4 }
    ensures { IfOk result (λ good. width_of fleet.new ≡ 4) }
{
    let mut first = some_gave(alloc, state)?;
    let mut second = some_gave(alloc, state)?;
    let mut lines = line_of(alloc, &first)?;
    lines.extend_from_slice(line_of(alloc, &second)?.as_slice())?;
    let event = if next(state) < 128 {
        run(alloc, "batch", lines.as_slice())?
    } else {
        let round = u64::from(next(state) % 16);
        let fates = [fate(state), fate(state), fate(state), fate(state)];
        stop(alloc, "batch", lines.as_slice(), round, &fates)?
    };
    let done = after(rt, alloc, fleet, event)?.done;
    first.done = 1 <= done;
    acts.push(first)?;
    if 1 <= done {
        second.done = 2 <= done;
        acts.push(second)?;
    }
    Ok(done <= 2)
}

/// The loss of some cloud, where at most two are damaged then.
fn losing<R: Threads + Sync>(
    rt: &R,
    alloc: Global,
    fleet: &mut MemFleet,
    state: &mut u32,
    damaged: &mut Vec<u8>,
) -> Result<(), Fail>
    requires wide { width_of fleet.old ≡ 4 }
    ensures { IfOk result (λ u. width_of fleet.new ≡ 4) }
{
    let cloud = next(state) % 4;
    if !damaged.contains(&cloud) {
        if 2 <= damaged.len() {
            return Ok(());
        }
        damaged.push(cloud)?;
    }
    after(rt, alloc, fleet, lose(alloc, cloud, fate(state)))?;
    Ok(())
}

/// The repair of the cloud that was lost last, or of some cloud where none is damaged, stopped in
/// one of its rounds or not. Once it is done, the cloud isn't damaged. It may need a chunk of another
/// damaged cloud, or find no good code.
fn repairing<R: Threads + Sync>(
    rt: &R,
    alloc: Global,
    fleet: &mut MemFleet,
    state: &mut u32,
    damaged: &mut Vec<u8>,
) -> Result<bool, Fail>
    requires wide { width_of fleet.old ≡ 4 }
    ensures { IfOk result (λ good. width_of fleet.new ≡ 4) }
{
    let cloud = match damaged.as_slice().last() {
        Some(lost) => *lost,
        None => next(state) % 4,
    };
    let words = format!(in alloc; "repair {cloud}")?;
    let event = if next(state) < 128 {
        run(alloc, words.as_str(), b"")?
    } else {
        let round = u64::from(next(state) % 16);
        let fates = [fate(state), fate(state), fate(state), fate(state)];
        stop(alloc, words.as_str(), b"", round, &fates)?
    };
    let outcome = after(rt, alloc, fleet, event)?;
    if outcome.done == 1 {
        damaged.retain(|other| *other != cloud);
    }
    Ok(match outcome.status.code() {
        0 | 6 => true,
        10 => damaged.iter().any(|other| *other != cloud),
        _ => false,
    })
}

/// An event by chance, and what is known by it. Its outcome is one that there may be.
fn chance<R: Threads + Sync>(
    rt: &R,
    alloc: Global,
    fleet: &mut MemFleet,
    state: &mut u32,
    known: &mut Known,
) -> Result<bool, Fail>
    requires wide { width_of fleet.old ≡ 4 }
    ensures { IfOk result (λ good. width_of fleet.new ≡ 4) }
{
    let name = next(state) % 3;
    let kind = next(state) % 14;
    if 12 <= kind {
        return batching(rt, alloc, fleet, state, &mut known.acts);
    }
    if 9 <= kind {
        return repairing(rt, alloc, fleet, state, &mut known.damaged);
    }
    if kind == 8 {
        after(rt, alloc, fleet, run(alloc, "recover", b"")?)?;
        return Ok(true);
    }
    if 6 <= kind {
        losing(rt, alloc, fleet, state, &mut known.damaged)?;
        return Ok(true);
    }
    let value = if kind % 3 == 2 {
        Vec::new(alloc)
    } else {
        some_bytes(alloc, state)?
    };
    let event = giving(alloc, state, 3 <= kind, name, value.as_slice())?;
    let outcome = after(rt, alloc, fleet, event)?;
    let done = outcome.done == 1;
    known.acts.push(Gave { name, value, done })?;
    Ok(true)
}

/// All names give what they may after a few events by chance.
fn history<R: Threads + Sync>(rt: &R, alloc: Global, seed: u32) -> Result<bool, Fail> {
    let mut fleet = MemFleet::new(alloc, 4)?;
    let mut known = Known {
        acts: Vec::new(alloc),
        damaged: Vec::new(alloc),
    };
    let mut state = seed;
    let mut good = true;
    for _ in 0..6 {
        let allowed = chance(rt, alloc, &mut fleet, &mut state, &mut known)?;
        good = good && allowed;
        for name in 0..3u8 {
            let words = format!(in alloc; "get {}", letter(name))?;
            let bytes = got(rt, alloc, &mut fleet, words.as_str())?;
            good = good && is_allowed(known.acts.as_slice(), name, bytes.bytes());
        }
    }
    Ok(good)
}

#[test]
fn a_get_gives_what_the_model_allows(rt: HostRuntime) -> Result<(), Fail> {
    let alloc = rt.alloc();
    for seed in 0..300u32 {
        assert!(rt; history(&rt, alloc, seed)?, "seed {seed}");
    }
    Ok(())
}
