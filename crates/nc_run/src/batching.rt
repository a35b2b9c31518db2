//! The acts of a batch, one line after the other.
ghost use Rattle.std.specs.Prelude.{◌≡◌, ◌≤◌, ◌^◌, [], Some, true, length, map, IfSome};
ghost use Rattle.nc_words.specs.Settings.{IsSetting};
ghost use Rattle.nc_run.specs.Ending.{CountsStream, IsEarly, IsRefused};
ghost use Rattle.nc_run.specs.Items.{lines_of};
ghost use Rattle.nc_run.specs.Items.Item.{InLine};
ghost use Rattle.nc_run.specs.Sides.{IsWide};
ghost use Rattle.nc_run.specs.Turning.{ending_at};
ghost use Rattle.nc_run.specs.Watching.{CourseShown};

use crate::acting::turn;
use crate::ending::{Ending, plain};
use crate::lines::first_line;
use crate::status::Status;
use crate::turned::Turned;
use crate::watching::Watch;
use nc_cloud::Fleet;
use nc_stream::Sink;
use nc_vault::Fault;
use nc_words::{LineFault, Setting, read_line};
use std::alloc::Global;
use std::thread::Threads;

/// Does the acts of all lines, one after the other, up to the first that isn't done.
pub(crate) fn run_lines<R: Threads + Sync, F: Fleet, K: Sink, W: Watch<F>>(
    rt: &R,
    alloc: Global,
    setting: &Setting,
    input: &[u8],
    fleet: &mut F,
    out: &mut K,
    watch: &mut W,
) -> Option<Ending>
    requires ready { F.ready }
    requires width { IsWide (F.clouds fleet.old) }
    requires setting { IsSetting setting.now }
    requires short { length input.now ≤ 2 ^ 26 }
    requires begins { W.knows watch.old watch.old [] fleet.old }
    ensures begun { IfSome result (λ e. IsRefused e.status → ⊥) }
    ensures late { IfSome result (λ e. IsEarly e.status → ⊥) }
    ensures shown { CourseShown F.Fleet K.Sink W.Watch (F.clouds fleet.old) true
        (map (InLine setting.now) (lines_of input.now))
        fleet.old fleet.new out.old out.new watch.old watch.new result }
    ensures write { IfSome result (λ e. CountsStream Status.WriteFault K.counts_exactly
        (K.faults out.old) (K.faults out.new) e.status) }
{
    let width = fleet.width() as u8;
    let mut rest = input;
    let mut count = 0;
    while !rest.is_empty() {
        let (line, after) = first_line(rest);
        let read = match read_line(alloc, line, width) {
            Ok(read) => read,
            Err(LineFault::Outside) => return Some(plain(Status::BatchLine(count + 1))),
            Err(LineFault::Memory) => return Some(plain(Status::Vault(Fault::Memory))),
        };
        let bytes = read.bytes.bytes();
        match turn(
            rt, alloc, setting, &read.act, bytes, true, fleet, out, watch,
        ) {
            Turned::GoesOn => {}
            Turned::Cut => return None,
            Turned::Unwritten => return Some(in_line(count + 1, Status::WriteFault, None)),
            Turned::Stopped { fault, after } => {
                return Some(in_line(count + 1, Status::Vault(fault), after));
            }
        }
        rest = after;
        count += 1;
    }
    Some(plain(Status::Ok))
}

/// An ending in this line of a batch.
fn in_line(line: u64, status: Status, after: Option<u64>) -> Ending
    ensures { result ≡ ending_at status (Some line) after }
{
    Ending {
        status,
        line: Some(line),
        after,
    }
}
