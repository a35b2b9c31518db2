ghost use Rattle.std.specs.Prelude.{◌≡◌, ◌*◌, ◌<◌, ◌≤◌, ◌++◌, IfOk, OnOk};
ghost use Rattle.nc_scrub.specs.Tables.{flaws_of, state_at, told, ListsTo};
ghost use Rattle.nc_scrub.specs.declared.flaw.Part.TheVariants.{Meta, Chunk};

use crate::flaw::{Flaw, Flaws, Part, State};
use nc_name::Memory;
use std::alloc::Global;

/// What these tables tell of metadata and of both rows, as a list.
pub(crate) fn listed(
    alloc: Global,
    width: u8,
    metas: &[Option<State>; 10],
    zeros: &[Option<State>; 10],
    ones: &[Option<State>; 10],
) -> Result<Flaws, Memory>
    requires narrow { width ≤ 10 }
    ensures { IfOk result (ListsTo (told metas.now zeros.now ones.now) (3 * width)) }
{
    let mut flaws = Flaws::new(alloc);
    for cloud in 0..width {
        push_cloud(
            &mut flaws,
            cloud,
            state_at(metas, cloud),
            state_at(zeros, cloud),
            state_at(ones, cloud),
        )?;
    }
    Ok(flaws)
}

/// Why the part of a cloud isn't right, by the table of all clouds.
fn state_at(table: &[Option<State>; 10], cloud: u8) -> Option<State>
    requires { cloud < 10 }
    ensures { result ≡ state_at table.now cloud }
{
    table[cloud as usize]
}

/// Adds the parts of a cloud that aren't right.
fn push_cloud(
    flaws: &mut Flaws,
    cloud: u8,
    meta: Option<State>,
    zero: Option<State>,
    one: Option<State>,
) -> Result<(), Memory>
    ensures { OnOk result
        (flaws.new
        ≡ ((flaws.old ++ flaws_of cloud Meta meta) ++ flaws_of cloud (Chunk 0) zero)
        ++ flaws_of cloud (Chunk 1) one) }
{
    push_part(flaws, cloud, Part::Meta, meta)?;
    push_part(flaws, cloud, Part::Chunk(0), zero)?;
    push_part(flaws, cloud, Part::Chunk(1), one)?;
    Ok(())
}

/// Adds a part, where it isn't right.
fn push_part(flaws: &mut Flaws, cloud: u8, part: Part, state: Option<State>) -> Result<(), Memory>
    ensures { OnOk result (flaws.new ≡ flaws.old ++ flaws_of cloud part state) }
{
    match state {
        Some(state) => flaws.push(Flaw { cloud, part, state }),
        None => Ok(()),
    }
}
