ghost use Rattle.std.specs.Prelude.{IfErr, IfOk};
ghost use Rattle.nc_download.specs.Seeing.{Refuses, SeesNoMeta, Shows};

use crate::fault::FetchFault;
use nc_meta::{Live, Meta};
use nc_settle::View;

/// The metadata of the file that a view shows, or why it shows none. At most two clouds may have failed in it.
pub fn shown(view: &View) -> Result<Live, FetchFault>
    ensures shown { IfOk result (Shows view.now) }
    ensures fault { IfErr result (Refuses view.now) }
{
    if let Some(cloud) = view.too_many_failing() {
        return Err(FetchFault::Cloud(cloud));
    }
    let Some(top) = view.top() else {
        return Err(nothing(view));
    };
    if let Some(conflict) = view.conflict() {
        return Err(FetchFault::Conflict {
            generation: conflict.generation,
            a: conflict.a,
            b: conflict.b,
        });
    }
    match top.meta {
        Meta::Live(live) => Ok(*live),
        Meta::Gone { .. } => Err(FetchFault::NoFile),
    }
}

/// Why no file is shown where no cloud was seen to hold metadata of its own.
fn nothing(view: &View) -> FetchFault
    ensures { SeesNoMeta view.now result }
{
    match view.misplaced() {
        Some(misplaced) => FetchFault::Misplaced {
            cloud: misplaced.cloud,
            said_cloud: misplaced.said_cloud,
            said_width: misplaced.said_width,
        },
        None => FetchFault::NoFile,
    }
}
