ghost use Rattle.std.specs.Prelude.{IfOk};
ghost use Rattle.nc_names.specs.Listing.{SortsNames};

use nc_name::{Memory, Name};

/// These names in the order of their bytes, each once.
pub(crate) fn sorted_names(mut names: Vec<Name>) -> Result<Vec<Name>, Memory>
    ensures { IfOk result (λ sorted. SortsNames names.items sorted.items) }
{
    match names.sort_by(|a, b| a.bytes().cmp(b.bytes())) {
        Ok(()) => {}
        Err(_) => return Err(Memory),
    }
    names.dedup_by(|a, b| a.is_same(b));
    Ok(names)
}
