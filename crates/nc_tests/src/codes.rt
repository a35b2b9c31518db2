//! A code for four clouds whose next loss can be repaired, and what a command that stored a file gives.
ghost use Rattle.std.specs.Prelude.{◌≡◌, ◌<◌};

use nc_code::{Plan, Witnesses, repaired, striped};
use nc_meta::Meta;
use nc_nextloss::{GoodCode, confirm, drawn_plan};
use nc_settle::Settled;
use std::process::Abort;

fn plan(lost: u8, bytes: &[u8; 7]) -> Plan
    requires { lost < 4 }
{
    drawn_plan(4, lost, &[0; 10], bytes, 0)
}

/// A code for four clouds, with its witnesses.
pub(crate) fn good_code(rt: &impl Abort) -> GoodCode
    ensures { result.code.width ≡ 4 }
{
    let once = repaired(&striped(4), 1, &plan(1, &[0, 5, 5, 2, 3, 5, 4]));
    let code = repaired(&once, 0, &plan(0, &[2, 5, 1, 5, 1, 7, 4]));
    let mut plans = [Plan::none(); 10];
    plans[0] = plan(0, &[1, 3, 3, 7, 7, 6, 2]);
    plans[1] = plan(1, &[1, 0, 4, 7, 6, 6, 6]);
    plans[2] = plan(2, &[1, 3, 4, 6, 4, 6, 6]);
    plans[3] = plan(3, &[2, 5, 6, 3, 5, 0, 4]);
    match confirm(&code, &Witnesses { plans }) {
        Some(good) => good,
        None => panic!(rt; "the code is good"),
    }
}

/// The slots of the metadata, the length of its file and its generation.
pub(crate) fn shown(settled: &Settled) -> ([u8; 10], u64, u64) {
    match &settled.top {
        Some(Meta::Live(live)) => (live.slots, live.len, live.generation),
        _ => ([9; 10], 0, 0),
    }
}
