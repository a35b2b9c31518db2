ghost use Rattle.nc_cloud.specs.Fleet.{erasures};
ghost use Rattle.nc_cloud.specs.Deciding.{AreAscending, Erased};

use crate::fleet::{Erase, Fleet};

/// A round of deletes, on some clouds in ascending order.
fn erase_round<F: Fleet>(fleet: &mut F, erases: &mut [Erase])
    requires ready { F.ready }
    requires clouds { AreAscending (λ e. e.cloud) (F.clouds fleet.old) erases.old }
    ensures erased { Erased F.Fleet (erasures erases.old) fleet.old fleet.new }
{
    fleet.delete_round(erases);
}

/// A round of deletes, on some clouds in ascending order. Where there are none, no round is made. What the deletes answer is not told.
pub fn erase_row<F: Fleet>(fleet: &mut F, mut erases: Vec<Erase>)
    requires ready { F.ready }
    requires clouds { AreAscending (λ e. e.cloud) (F.clouds fleet.old) erases.items }
    ensures erased { Erased F.Fleet (erasures erases.items) fleet.old fleet.new }
{
    if erases.is_empty() {
        return;
    }
    erase_round(fleet, &mut erases);
}
