ghost use Rattle.std.specs.Prelude.{◌≡◌, ◌<◌, ◌≤◌, ℕ, All, IfOk, map, slice_index};
ghost use Rattle.nc_name.specs.Keys.{Slots};
ghost use Rattle.nc_meta.specs.Metas.{IsLive};
ghost use Rattle.nc_fetch.specs.Seats.{seat_of, AllJudged, IsJudgedSeat};

use crate::founds::{Found, judge_answer};
use nc_cloud::{Answer, Ask};
use nc_download::{Wanted, wanted};
use nc_meta::Live;
use nc_name::{Memory, Name};
use std::alloc::Global;
use std::thread::Threads;
use std::{mem, thread};

/// An answer of a round beside a place for what it gives of its chunk.
#[derive(Debug, Drop)]
pub struct Seat {
    /// The chunk that was asked for.
    pub wanted: Wanted,
    /// Its row.
    pub row: u8,
    /// `Waiting` once it is judged.
    pub answer: Answer,
    /// `Unasked` until then.
    pub found: Result<Found, Memory>,
}

/// What the answers of a round give of the chunks that were asked for, in order; `rows` has the row
/// of each cloud's chunk. They are judged at once, by up to so many workers; one begins no thread.
/// A good chunk's payload stays where it stands in its answer, and takes no memory besides. All other
/// answers are let go.
pub fn judge_all<R: Threads + Sync>(
    rt: &R,
    alloc: Global,
    width: u8,
    name: &Name,
    live: &Live,
    rows: &[u8; 10],
    asks: Vec<Ask>,
    workers: u8,
) -> Result<Vec<Seat>, Memory>
    requires wide { 4 ≤ width }
    requires narrow { width ≤ 10 }
    requires live { IsLive width live.now }
    requires rows { (c : ℕ) → slice_index rows.now c < 2 }
    requires clouds { All (λ a. a.cloud < width) asks.items }
    requires some_worker { 1 ≤ workers }
    ensures { IfOk result
        (λ seats. AllJudged (map (seat_of width name.now live.now rows.now) asks.items)
        seats.items) }
{
    let seats = seated(alloc, width, name, live, rows, asks)?;
    Ok(judged(rt, seats, workers))
}

/// A seat for each entry.
fn seated(
    alloc: Global,
    width: u8,
    name: &Name,
    live: &Live,
    rows: &[u8; 10],
    asks: Vec<Ask>,
) -> Result<Vec<Seat>, Memory>
    requires wide { 4 ≤ width }
    requires narrow { width ≤ 10 }
    requires live { IsLive width live.now }
    requires rows { (c : ℕ) → slice_index rows.now c < 2 }
    requires clouds { All (λ a. a.cloud < width) asks.items }
    ensures are { IfOk result
        (λ seats. seats.items ≡ map (seat_of width name.now live.now rows.now) asks.items) }
    ensures slots { IfOk result (λ seats. All (λ s. Slots s.wanted.key) seats.items) }
{
    let mut seats = Vec::with_capacity(alloc, asks.len())?;
    for ask in asks {
        seats.push(seat_for(width, name, live, rows, ask))?;
    }
    Ok(seats)
}

/// The seat of an entry.
fn seat_for(width: u8, name: &Name, live: &Live, rows: &[u8; 10], ask: Ask) -> Seat
    requires wide { 4 ≤ width }
    requires narrow { width ≤ 10 }
    requires live { IsLive width live.now }
    requires rows { (c : ℕ) → slice_index rows.now c < 2 }
    requires cloud { ask.cloud < width }
    ensures is { result ≡ seat_of width name.now live.now rows.now ask }
    ensures slots { Slots result.wanted.key }
{
    let row = row_of(rows, ask.cloud);
    Seat {
        wanted: wanted(width, name, live, row, ask.cloud),
        row,
        answer: ask.answer,
        found: Ok(Found::Unasked),
    }
}

fn row_of(rows: &[u8; 10], cloud: u8) -> u8
    requires { cloud < 10 }
    ensures { result ≡ slice_index rows.now cloud }
{
    rows[cloud as usize]
}

/// The same seats, judged.
fn judged<R: Threads + Sync>(rt: &R, mut seats: Vec<Seat>, workers: u8) -> Vec<Seat>
    requires slots { All (λ s. Slots s.wanted.key) seats.items }
    requires some_worker { 1 ≤ workers }
    ensures { AllJudged seats.items result.items }
{
    judge_seats(rt, &mut seats, workers);
    seats
}

/// Judges all seats at once, by up to so many workers.
fn judge_seats<R: Threads + Sync>(rt: &R, seats: &mut [Seat], workers: u8)
    requires slots { All (λ s. Slots s.wanted.key) seats.old }
    requires some_worker { 1 ≤ workers }
    ensures { AllJudged seats.old seats.new }
{
    let share = share_of(workers, seats.len());
    thread::for_each_mut(
        rt,
        seats,
        usize::from(workers),
        &|_, seat| judge_seat(rt, seat, share),
    );
}

/// How many workers there are for each seat, two at most.
fn share_of(workers: u8, seats: usize) -> u8 {
    if usize::from(workers / 2) < seats {
        1
    } else {
        2
    }
}

/// Judges the answer of a seat, of which nothing stays but a good chunk's payload.
fn judge_seat<R: Threads>(rt: &R, seat: &mut Seat, workers: u8)
    requires { Slots seat.old.wanted.key }
    ensures { IsJudgedSeat seat.old seat.new }
{
    let answer = mem::replace(&mut seat.answer, Answer::Waiting);
    seat.found = judge_answer(rt, &seat.wanted, seat.row, answer, workers);
}
