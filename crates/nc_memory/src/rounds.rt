ghost use Rattle.std.specs.Prelude.{◌≡◌};
ghost use Rattle.nc_memory.specs.Record.{counted};
ghost use Rattle.nc_memory.specs.Rounds.{entries_in, entries_served, is_round, round_entries, round_place, rounds_in};

use crate::record::Event;

fn makes_round(event: &Event) -> bool
    ensures { result ≡ is_round event.now }
{
    match event {
        Event::Gets(_) | Event::Writes(_) => true,
        Event::Listed { .. } | Event::Planted { .. } | Event::Lost { .. } => false,
    }
}

fn size_of(event: &Event) -> usize
    ensures { result ≡ entries_in event.now }
{
    match event {
        Event::Gets(looks) => looks.items().len(),
        Event::Writes(steps) => steps.items().len(),
        Event::Listed { .. } => 1,
        Event::Planted { .. } | Event::Lost { .. } => 0,
    }
}

/// How many of these events are rounds.
pub(crate) fn count_rounds(log: &[Event]) -> u64
    ensures { result ≡ rounds_in log.now }
{
    let mut count: u64 = 0;
    for event in log {
        if makes_round(event) {
            count += 1;
        }
    }
    count
}

/// Where the round of this number stands among these events, from 0 on.
pub(crate) fn find_round(log: &[Event], round: u64) -> usize
    ensures { result ≡ round_place log.now round }
{
    let mut left = round;
    for (at, event) in log.iter().enumerate() {
        if makes_round(event) {
            if left == 0 {
                return at;
            }
            left -= 1;
        }
    }
    log.len()
}

/// How many entries these events have.
pub(crate) fn count_entries(log: &[Event]) -> u64
    ensures { result ≡ counted (entries_served log.now) }
{
    let mut count: u64 = 0;
    for event in log {
        count = count.saturating_add(size_of(event) as u64);
    }
    count
}

/// How many entries the round of this number has.
pub(crate) fn entries_at(log: &[Event], round: u64) -> usize
    ensures { result ≡ round_entries log.now round }
{
    match log.get(find_round(log, round)) {
        Some(event) => size_of(event),
        None => 0,
    }
}
