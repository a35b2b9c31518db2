ghost use Rattle.std.specs.Prelude.{◌≡◌, ◌⊎◌, IfOk, OnErr};
ghost use Rattle.nc_name.specs.Keys.{Slots};
ghost use Rattle.nc_cloud.specs.declared.fleet.Answer.TheVariants.{Bytes, Waiting, Memory as NoMemory};
ghost use Rattle.nc_fetch.specs.Founds.{FoundFrom};

use nc_cloud::Answer;
use nc_download::{How, Wanted, Why, judge_frame, payload_in};
use nc_name::{Blob, Memory};
use std::thread::Threads;

/// What a round gave of a cloud's chunk.
#[derive(Debug, Drop)]
pub enum Found {
    /// The cloud wasn't asked.
    Unasked,
    /// The payload of the chunk.
    Good(Blob),
    /// The cloud failed, or its chunk isn't good.
    Bad(Why),
}

/// What an answer gives of a chunk, whose payload stays where it stands in its frame: it takes no memory. Two workers compute
/// both digests at the same time.
pub(crate) fn judge_answer<R: Threads>(
    rt: &R,
    wanted: &Wanted,
    row: u8,
    answer: Answer,
    workers: u8,
) -> Result<Found, Memory>
    requires { Slots wanted.now.key }
    ensures found { IfOk result (FoundFrom wanted.now row answer) }
    ensures memory { OnErr result ((answer ≡ Waiting) ⊎ (answer ≡ NoMemory)) }
{
    match answer {
        Answer::Bytes(frame) => Ok(found_in(rt, wanted, row, frame, workers)),
        Answer::Absent => Ok(Found::Bad(Why::Row {
            row,
            how: How::Missing,
        })),
        Answer::Long => Ok(Found::Bad(Why::Row {
            row,
            how: How::Broken,
        })),
        Answer::Failed => Ok(Found::Bad(Why::Failed)),
        Answer::Waiting | Answer::Memory => Err(Memory),
    }
}

/// The payload of a good chunk, where it stands in these bytes, or why the chunk isn't good.
fn found_in<R: Threads>(rt: &R, wanted: &Wanted, row: u8, frame: Blob, workers: u8) -> Found
    requires { Slots wanted.now.key }
    ensures { FoundFrom wanted.now row (Bytes frame) result }
{
    match judge_frame(rt, wanted, frame.bytes(), workers) {
        Ok(_) => Found::Good(payload_in(wanted, frame)),
        Err(how) => Found::Bad(Why::Row { row, how }),
    }
}
