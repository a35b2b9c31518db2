//! One act of a run.
ghost use Rattle.std.specs.Prelude.{◌≡◌, ◌≤◌, ◌^◌, ◌∷◌, [], false, length, IfSome};
ghost use Rattle.nc_words.specs.Acts.{FitsWidth, task_of};
ghost use Rattle.nc_words.specs.Settings.{IsSetting};
ghost use Rattle.nc_run.specs.Ending.{CountsStream, IsEarly, IsRefused};
ghost use Rattle.nc_run.specs.Items.Item.{Alone};
ghost use Rattle.nc_run.specs.Sides.{IsWide};
ghost use Rattle.nc_run.specs.Turning.{TurnLeaves};
ghost use Rattle.nc_run.specs.Watching.{CourseShown};

use crate::ending::{Ending, plain};
use crate::saying::say;
use crate::status::Status;
use crate::turned::Turned;
use crate::watching::Watch;
use nc_cloud::Fleet;
use nc_stream::Sink;
use nc_vault::{Reply, step};
use nc_words::{Act, Setting};
use std::alloc::Global;
use std::thread::Threads;

/// Does the one act of a run, and prints what it answers where it was done.
pub(crate) fn run_single<R: Threads + Sync, F: Fleet, K: Sink, W: Watch<F>>(
    rt: &R,
    alloc: Global,
    setting: &Setting,
    act: &Act,
    bytes: &[u8],
    fleet: &mut F,
    out: &mut K,
    watch: &mut W,
) -> Option<Ending>
    requires ready { F.ready }
    requires width { IsWide (F.clouds fleet.old) }
    requires setting { IsSetting setting.now }
    requires fits { FitsWidth (F.clouds fleet.old) act.now }
    requires short { length bytes.now ≤ 2 ^ 26 }
    requires begins { W.knows watch.old watch.old [] fleet.old }
    ensures begun { IfSome result (λ e. IsRefused e.status → ⊥) }
    ensures late { IfSome result (λ e. IsEarly e.status → ⊥) }
    ensures shown { CourseShown F.Fleet K.Sink W.Watch (F.clouds fleet.old) false
        (Alone (task_of setting.now act.now bytes.now) ∷ [])
        fleet.old fleet.new out.old out.new watch.old watch.new result }
    ensures write { IfSome result (λ e. CountsStream Status.WriteFault K.counts_exactly
        (K.faults out.old) (K.faults out.new) e.status) }
{
    match turn(rt, alloc, setting, act, bytes, false, fleet, out, watch) {
        Turned::GoesOn => Some(plain(Status::Ok)),
        Turned::Cut => None,
        Turned::Unwritten => Some(plain(Status::WriteFault)),
        Turned::Stopped { fault, after } => Some(Ending {
            status: Status::Vault(fault),
            line: None,
            after,
        }),
    }
}

/// Does an act, shows the fleet where it was done, and prints what it answers then.
pub(crate) fn turn<R: Threads + Sync, F: Fleet, K: Sink, W: Watch<F>>(
    rt: &R,
    alloc: Global,
    setting: &Setting,
    act: &Act,
    bytes: &[u8],
    batch: bool,
    fleet: &mut F,
    out: &mut K,
    watch: &mut W,
) -> Turned
    requires ready { F.ready }
    requires width { IsWide (F.clouds fleet.old) }
    requires setting { IsSetting setting.now }
    requires fits { FitsWidth (F.clouds fleet.old) act.now }
    requires short { length bytes.now ≤ 2 ^ 26 }
    ensures leaves { TurnLeaves F.Fleet K.Sink W.Watch batch (task_of setting.now act.now bytes.now)
        fleet.old fleet.new out.old out.new watch.old watch.new result }
{
    let reply = step(rt, alloc, fleet, setting, act, bytes);
    match reply {
        Reply::Stopped { fault, after } => Turned::Stopped { fault, after },
        reply => {
            if !watch.act_done(fleet) {
                return Turned::Cut;
            }
            match say(out, batch, &reply) {
                Ok(()) => Turned::GoesOn,
                Err(_) => Turned::Unwritten,
            }
        }
    }
}
