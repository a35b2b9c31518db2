ghost use Rattle.std.specs.Prelude.{◌≡◌, ◌*◌, ◌++◌, ◌∷◌, [], IfOk, OnOk, length};
ghost use Rattle.nc_cloud.specs.Rounds.{row};
ghost use Rattle.nc_write.specs.Putting.{placed_of};

use crate::sealing::Placed;
use nc_mix::Chunks;
use nc_name::{Blob, Memory};
use std::alloc::Global;

/// Chunks of a version, by row, each with the cloud that it goes to.
#[derive(Debug, Drop)]
pub struct Rows {
    pub zeros: Vec<Placed>,
    pub ones: Vec<Placed>,
}

/// Sorts chunks by their rows. None is copied.
pub fn by_row(alloc: Global, width: u8, chunks: Chunks) -> Result<Rows, Memory>
    requires { length chunks ≡ 2 * width }
    ensures zeros { IfOk result (λ rows. rows.zeros.items ≡ row (placed_of chunks 0) 0 width) }
    ensures ones { IfOk result (λ rows. rows.ones.items ≡ row (placed_of chunks 1) 0 width) }
{
    let mut rest = chunks.into_items();
    let mut zeros = Vec::new(alloc);
    let mut ones = Vec::new(alloc);
    for cloud in 0..width {
        let zero = rest.remove(0);
        place(&mut zeros, cloud, zero)?;
        let one = rest.remove(0);
        place(&mut ones, cloud, one)?;
    }
    Ok(Rows { zeros, ones })
}

/// Adds a chunk of a cloud.
fn place(placed: &mut Vec<Placed>, cloud: u8, chunk: Blob) -> Result<(), Memory>
    ensures { OnOk result (placed.new.items ≡ placed.old.items ++ record { cloud = cloud; chunk = chunk } ∷ []) }
{
    match placed.push(Placed { cloud, chunk }) {
        Ok(()) => Ok(()),
        Err(_) => Err(Memory),
    }
}
