ghost use Rattle.std.specs.Prelude.{◌≡◌, ◌<◌, ◌≤◌, IfErr, IfOk};
ghost use Rattle.nc_code.specs.Codes.{repaired};
ghost use Rattle.nc_code.specs.Good.{IsGood};
ghost use Rattle.nc_meta.specs.Metas.{IsLive};
ghost use Rattle.nc_words.specs.Settings.{IsSetting};
ghost use Rattle.nc_vault.specs.Drawing.{IsDrawn, IsRepairDrawn, RefusesNext, RefusesRepair};
ghost use Rattle.nc_vault.specs.Makings.{stored_plan as stored_plan_of};

use crate::fault::Fault;
use nc_code::Plan;
use nc_meta::Live;
use nc_name::Name;
use nc_nextloss::GoodCode;
use nc_search::{Mend, Start, draw_key, find_repair, find_start};
use nc_settle::Settled;
use nc_state::next_generation;
use nc_words::Setting;

/// The code of the file's version after what the name is settled on, with a witness for each next loss. Anyone can draw it again from
/// the seed, the name and the generation.
pub fn draw(setting: &Setting, name: &Name, before: &Settled, width: u8) -> Result<GoodCode, Fault>
    requires setting { IsSetting setting.now }
    requires wide { 4 ≤ width }
    requires narrow { width ≤ 10 }
    ensures drawn { IfOk result (IsDrawn width setting.now name.now before.now.top) }
    ensures good { IfOk result (λ good. IsGood good.code good.witnesses) }
    ensures refused { IfErr result (RefusesNext width setting.now name.now before.now.top) }
{
    let Some(generation) = next_generation(before.generation()) else {
        return Err(Fault::Worn);
    };
    let key = draw_key(&setting.seed, name, generation);
    match find_start(width, &key, setting.budget) {
        Start::Found { good, .. } => {
            let _kept = good.code();
            Ok(good)
        }
        Start::Spent(tried) => Err(Fault::Spent(tried)),
    }
}

/// The plan that the lost cloud of this file is repaired by, and the code of the version after it, with a witness for each next
/// loss. Where the metadata has a plan for this loss, that is the first candidate's. Anyone can draw both again from the seed, the
/// name and the metadata.
pub fn draw_repair(
    setting: &Setting,
    name: &Name,
    old: &Live,
    lost: u8,
) -> Result<(Plan, GoodCode), Fault>
    requires setting { IsSetting setting.now }
    requires live { IsLive old.now.code.width old.now }
    requires lost { lost < old.now.code.width }
    ensures drawn { IfOk result
        (λ found. IsRepairDrawn setting.now lost name.now old.now found.0 found.1) }
    ensures code { IfOk result (λ found. found.1.code ≡ repaired old.now.code lost found.0) }
    ensures refused { IfErr result (RefusesRepair setting.now lost name.now old.now) }
{
    let Some(next) = next_generation(old.generation) else {
        return Err(Fault::Worn);
    };
    let key = draw_key(&setting.seed, name, next);
    let code = old.code;
    let stored = stored_plan(old, lost);
    match find_repair(&code, stored.as_ref(), lost, &key, setting.budget) {
        Mend::Found { plan, good, .. } => {
            let _kept = good.code();
            Ok((plan, good))
        }
        Mend::Spent(tried) => Err(Fault::Spent(tried)),
    }
}

/// The plan that the metadata has for the loss of a cloud, if any.
fn stored_plan(old: &Live, lost: u8) -> Option<Plan>
    requires { lost < 10 }
    ensures { result ≡ stored_plan_of old.now lost }
{
    match &old.witnesses {
        Some(witnesses) => Some(*witnesses.plan(lost)),
        None => None,
    }
}
