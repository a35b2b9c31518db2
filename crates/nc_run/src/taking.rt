ghost use Rattle.std.specs.Prelude.{◌≡◌, ◌≤◌, ◌^◌, true, length, IfOk, OnErr};
ghost use Rattle.nc_stream.specs.Input.{FailsBy};
ghost use Rattle.nc_run.specs.Sides.{TakesIf, reads_input};

use nc_name::Blob;
use nc_stream::{InputFault, Source, read_all};
use nc_words::{Act, Command};
use std::alloc::Global;

/// Takes all of the input where the command reads it, else nothing.
pub fn take_input<S: Source>(
    alloc: Global,
    command: &Command,
    source: &mut S,
) -> Result<Blob, InputFault>
    ensures takes { TakesIf (reads_input command.now) S.Source source.old source.new result }
    ensures reads { OnErr result (reads_input command.now ≡ true) }
    ensures fails { FailsBy S.counts_exactly (S.faults source.old) (S.faults source.new) result }
    ensures short { IfOk result (λ input. length input ≤ 2 ^ 26) }
{
    match command {
        Command::Act(Act::Put(_)) | Command::Batch => read_all(alloc, source),
        Command::Act(
            Act::Get(_)
            | Act::Remove(_)
            | Act::List
            | Act::Stat(_)
            | Act::Repair(_)
            | Act::Restore { .. }
            | Act::Scrub
            | Act::Recover,
        )
        | Command::Mill(_) => Ok(Blob::from_vec(Vec::new(alloc))),
    }
}
