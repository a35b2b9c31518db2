//! `ls` of all files.
ghost use Rattle.std.specs.Prelude.{◌≡◌, ◌≤◌, ℕ, List, Some};
ghost use Rattle.nc_words.specs.declared.act.Act.TheVariants as act;
ghost use Rattle.nc_words.specs.declared.setting.Setting.{Setting};
ghost use Rattle.nc_words.specs.Acts.{task_of};
ghost use Rattle.nc_vault.specs.Acting.{Acted};
ghost use Rattle.nc_vault.specs.Faults.{fault_of_fetch};
ghost use Rattle.nc_vault.specs.declared.reply.Reply.TheVariants.{Stopped};

use crate::bearing::least_of_three;
use crate::fault::Fault;
use crate::reply::Reply;
use crate::rows::rows_of;
use nc_cloud::Fleet;
use nc_download::{ListStop, find_all};
use nc_names::list_names;
use std::alloc::Global;

/// Tells all files, by name. It changes nothing. A cloud that failed in a list or a look isn't asked again; it goes on while at most
/// two clouds fail.
pub(crate) fn list<F: Fleet>(alloc: Global, fleet: &mut F) -> Reply
    requires ready { F.ready }
    requires wide { 4 ≤ F.clouds fleet.old }
    requires narrow { F.clouds fleet.old ≤ 10 }
    ensures acted { (s : Setting) (bytes : List ℕ) → Acted F.Fleet (task_of s act.List bytes) fleet.old fleet.new result }
{
    let mut failed = [false; 10];
    let names = match list_names(alloc, fleet, &mut failed) {
        Ok(names) => names,
        Err(_) => return stopped(Fault::Memory, 0),
    };
    if let Some(cloud) = least_of_three(&failed, fleet.width() as u8) {
        return stopped(Fault::Cloud(cloud), 0);
    }
    let lens = match find_all(alloc, fleet, &names, &mut failed) {
        Ok(lens) => lens,
        Err(stop) => return stopped_at(stop),
    };
    match rows_of(alloc, &names, &lens) {
        Ok(rows) => Reply::Listing(rows),
        Err(_) => stopped(Fault::Memory, names.len() as u64),
    }
}

fn stopped_at(stop: ListStop) -> Reply
    ensures { result ≡ Stopped (fault_of_fetch stop.fault) (Some stop.done) }
{
    stopped(Fault::from(stop.fault), stop.done)
}

fn stopped(fault: Fault, done: u64) -> Reply
    ensures { result ≡ Stopped fault (Some done) }
{
    Reply::Stopped {
        fault,
        after: Some(done),
    }
}
