//! `stat` of a file.
ghost use Rattle.std.specs.Prelude.{◌≤◌, ℕ, List};
ghost use Rattle.nc_words.specs.declared.act.Act.TheVariants as act;
ghost use Rattle.nc_words.specs.declared.setting.Setting.{Setting};
ghost use Rattle.nc_words.specs.Acts.{task_of};
ghost use Rattle.nc_vault.specs.Acting.{Acted};

use crate::fault::Fault;
use crate::reply::Reply;
use nc_cloud::Fleet;
use nc_download::find;
use nc_name::Name;
use std::alloc::Global;

/// Tells about the file of this name. It changes nothing, and goes on while at most two clouds fail.
pub(crate) fn stat<F: Fleet>(alloc: Global, fleet: &mut F, name: &Name) -> Reply
    requires ready { F.ready }
    requires wide { 4 ≤ F.clouds fleet.old }
    requires narrow { F.clouds fleet.old ≤ 10 }
    ensures acted { (s : Setting) (bytes : List ℕ) → Acted F.Fleet (task_of s (act.Stat name.now) bytes) fleet.old fleet.new result }
{
    match find(alloc, fleet, name) {
        Ok(live) => Reply::About {
            generation: live.generation,
            len: live.len,
            witnessed: live.witnesses.is_some(),
        },
        Err(fault) => Reply::Stopped {
            fault: Fault::from(fault),
            after: None,
        },
    }
}
