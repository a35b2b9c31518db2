ghost use Rattle.std.specs.Prelude.{◌≡◌, ◌≤◌, ◌++◌, ◌∷◌, [], ℕ, IfErr, IfOk, OnOk, length};
ghost use Rattle.nc_cloud.specs.Deciding.{OnlyLooked};
ghost use Rattle.nc_cloud.specs.Stopping.{Stops};
ghost use Rattle.nc_settle.specs.MetaWrites.{named};
ghost use Rattle.nc_download.specs.Listing.{AreListed, FailMore, FindRefuses, ListRefuses, OnlyMore, SeenOf, StayFew};
ghost use Rattle.nc_download.specs.ListingOnVaults.{AllShow, StopsFor};
ghost use Rattle.nc_download.specs.Seeing.{is_no_file, ShowsOr};

use crate::fault::FetchFault;
use crate::showing::shown;
use nc_cloud::Fleet;
use nc_name::{Memory, Name};
use nc_settle::look_without;
use std::alloc::Global;
use thiserror::Error;

/// Why not all names were looked for, and how many were before it.
#[derive(Debug, Drop, Error)]
#[error("after {done} names: {fault}")]
pub struct ListStop {
    pub fault: FetchFault,
    pub done: u64,
}

/// The lengths of the files of these names, by name: nothing where there is no file. A cloud that failed isn't asked for the names
/// that follow: `failed` names those that failed before, and afterwards those that failed here too.
pub fn find_all<F: Fleet>(
    alloc: Global,
    fleet: &mut F,
    names: &[Name],
    failed: &mut [bool; 10],
) -> Result<Vec<Option<u64>>, ListStop>
    requires ready { F.ready }
    requires wide { 4 ≤ F.clouds fleet.old }
    requires narrow { F.clouds fleet.old ≤ 10 }
    ensures listed { IfOk result
        (λ lens. AreListed F.Fleet fleet.old names.now (length names.now)
        (named failed.old) (named failed.new) lens.items) }
    ensures refused { IfErr result
        (ListRefuses F.Fleet names.now (named failed.old) (named failed.new) fleet.old fleet.new) }
    ensures shows { F.tells
        → IfOk result (λ lens. AllShow F.Fleet fleet.old names.now (named failed.new) lens.items) }
    ensures stopped { F.tells
        → IfErr result (λ stop. StopsFor F.Fleet fleet.old (named failed.new) stop.fault) }
    ensures few { OnOk result (StayFew (F.clouds fleet.old) (named failed.old) (named failed.new)) }
    ensures more { FailMore F.Fleet (named failed.old) (named failed.new) fleet.old fleet.new }
    ensures only { F.counts_exactly
        → OnOk result (OnlyMore F.Fleet (named failed.old) (named failed.new) fleet.old fleet.new) }
    ensures looked { OnlyLooked F.Fleet fleet.old fleet.new }
    ensures stops { Stops F.Fleet fleet.old fleet.new (λ G. G ≡ F.held fleet.old) }
    ensures gets { (c : ℕ) → F.chunk_gets fleet.new c ≡ F.chunk_gets fleet.old c }
{
    let mut lens = Vec::new(alloc);
    for k in 0..names.len() {
        match find_without(alloc, fleet, &names[k], failed) {
            Ok(len) => {
                let Ok(()) = push_len(&mut lens, len) else {
                    return Err(ListStop {
                        fault: FetchFault::Memory,
                        done: k as u64,
                    });
                };
            }
            Err(fault) => {
                return Err(ListStop {
                    fault,
                    done: k as u64,
                });
            }
        }
    }
    Ok(lens)
}

/// The length of the file of this name, where there is one. No cloud that `failed` names is asked; afterwards it names those that
/// failed here too.
fn find_without<F: Fleet>(
    alloc: Global,
    fleet: &mut F,
    name: &Name,
    failed: &mut [bool; 10],
) -> Result<Option<u64>, FetchFault>
    requires ready { F.ready }
    requires wide { 4 ≤ F.clouds fleet.old }
    requires narrow { F.clouds fleet.old ≤ 10 }
    ensures found { IfOk result
        (λ len. SeenOf F.Fleet fleet.old name.now
        (named failed.new) (named failed.new) (ShowsOr len)) }
    ensures refused { IfErr result
        (FindRefuses F.Fleet name.now (named failed.old) (named failed.new) fleet.old fleet.new) }
    ensures more { FailMore F.Fleet (named failed.old) (named failed.new) fleet.old fleet.new }
    ensures only { F.counts_exactly
        → OnOk result (OnlyMore F.Fleet (named failed.old) (named failed.new) fleet.old fleet.new) }
    ensures looked { OnlyLooked F.Fleet fleet.old fleet.new }
    ensures stops { Stops F.Fleet fleet.old fleet.new (λ G. G ≡ F.held fleet.old) }
    ensures gets { (c : ℕ) → F.chunk_gets fleet.new c ≡ F.chunk_gets fleet.old c }
{
    let view = look_without(alloc, fleet, name, failed)?;
    *failed = view.failed();
    match shown(&view) {
        Ok(live) => Ok(Some(live.len)),
        Err(fault) => {
            if is_no_file(&fault) {
                return Ok(None);
            }
            Err(fault)
        }
    }
}

fn is_no_file(fault: &FetchFault) -> bool
    ensures { result ≡ is_no_file fault.now }
{
    matches!(fault, FetchFault::NoFile)
}

fn push_len(lens: &mut Vec<Option<u64>>, len: Option<u64>) -> Result<(), Memory>
    ensures { OnOk result (lens.new.items ≡ lens.old.items ++ len ∷ []) }
{
    match lens.push(len) {
        Ok(()) => Ok(()),
        Err(_) => Err(Memory),
    }
}
