ghost use Rattle.std.specs.Prelude.{◌≡◌, ◌<◌, ◌≤◌, ◌++◌, ◌∷◌, [], OnOk, length, option_to_list};
ghost use Rattle.nc_cloud.specs.Rounds.{some_row};
ghost use Rattle.nc_settle.specs.MetaWrites.{named};
ghost use Rattle.nc_fetch.specs.declared.founds.Found.TheVariants.{Good as GoodFound};
ghost use Rattle.nc_fetch.specs.Founds.{found_at, is_good, NamesGood};
ghost use Rattle.nc_fetch.specs.Whys.{AreMarked, NamesFree, free_between, is_fine, piece_at, piece_of, why_at, why_of};

use crate::founds::Found;
use nc_download::Why;
use nc_mix::Piece;
use nc_name::{Blob, Memory};

/// The clouds from `at` on and below `next` that weren't found bad.
pub(crate) fn free_ones(whys: &[Option<Why>; 10], at: u8, next: u8, width: u8) -> [bool; 10]
    requires { width ≤ 10 }
    ensures { NamesFree whys.now at next width result }
{
    let mut table = [false; 10];
    for cloud in 0..width {
        table[cloud as usize] = is_free(whys, at, next, cloud);
    }
    table
}

fn is_free(whys: &[Option<Why>; 10], at: u8, next: u8, cloud: u8) -> bool
    requires { cloud < 10 }
    ensures { result ≡ free_between whys.now at next cloud }
{
    if cloud < at {
        return false;
    }
    if next <= cloud {
        return false;
    }
    is_fine(whys, cloud)
}

/// Whether a cloud wasn't found bad.
pub(crate) fn is_fine(whys: &[Option<Why>; 10], cloud: u8) -> bool
    requires { cloud < 10 }
    ensures { result ≡ is_fine (why_at whys.now cloud) }
{
    whys[cloud as usize].is_none()
}

/// Whether a table names a cloud.
pub fn is_named(on: &[bool; 10], cloud: u8) -> bool
    requires { cloud < 10 }
    ensures { result ≡ named on.now cloud }
{
    on[cloud as usize]
}

/// The clouds that gave a good chunk.
pub(crate) fn good_ones(founds: &[Found]) -> [bool; 10]
    requires { length founds.now ≤ 10 }
    ensures { NamesGood founds.now (length founds.now) result }
{
    let mut table = [false; 10];
    for cloud in 0..founds.len() {
        table[cloud] = is_good(founds, cloud);
    }
    table
}

fn is_good(founds: &[Found], cloud: usize) -> bool
    requires { cloud < length founds.now }
    ensures { result ≡ is_good (found_at founds.now cloud) }
{
    matches!(&founds[cloud], Found::Good(_))
}

/// Why clouds are bad, once they are asked for both rows.
pub(crate) fn whys_after(
    whys: &[Option<Why>; 10],
    zeros: &[Found],
    ones: &[Found],
) -> [Option<Why>; 10]
    requires few { length zeros.now ≤ 10 }
    requires same { length ones.now ≡ length zeros.now }
    ensures { AreMarked zeros.now ones.now (length zeros.now) whys.now result }
{
    let mut table = *whys;
    for cloud in 0..zeros.len() {
        table[cloud] = why_after(&zeros[cloud], &ones[cloud], whys[cloud]);
    }
    table
}

/// Why a cloud is bad, by what it gave of both rows.
fn why_after(zero: &Found, one: &Found, why: Option<Why>) -> Option<Why>
    ensures { result ≡ why_of zero.now one.now why }
{
    match zero {
        Found::Unasked => why,
        Found::Bad(bad) => Some(*bad),
        Found::Good(_) => match one {
            Found::Bad(bad) => Some(*bad),
            Found::Unasked | Found::Good(_) => why,
        },
    }
}

/// Adds both chunks of each cloud that gave them.
pub(crate) fn join(
    width: u8,
    mut zeros: Vec<Found>,
    mut ones: Vec<Found>,
    pieces: &mut Vec<Piece>,
) -> Result<(), Memory>
    requires zeros { length zeros.items ≡ width }
    requires ones { length ones.items ≡ width }
    ensures { OnOk result
        (pieces.new.items
        ≡ pieces.old.items ++ some_row (piece_at zeros.items ones.items) 0 width) }
{
    for cloud in 0..width {
        let zero = zeros.remove(0);
        let one = ones.remove(0);
        push_both(pieces, cloud, zero, one)?;
    }
    Ok(())
}

/// Adds both chunks of a cloud, where it gave them.
fn push_both(pieces: &mut Vec<Piece>, cloud: u8, zero: Found, one: Found) -> Result<(), Memory>
    ensures { OnOk result
        (pieces.new.items ≡ pieces.old.items ++ option_to_list (piece_of cloud zero one)) }
{
    match zero {
        Found::Good(zero) => push_one(pieces, cloud, zero, one),
        Found::Unasked | Found::Bad(_) => Ok(()),
    }
}

fn push_one(pieces: &mut Vec<Piece>, cloud: u8, zero: Blob, one: Found) -> Result<(), Memory>
    ensures { OnOk result
        (pieces.new.items
        ≡ pieces.old.items ++ option_to_list (piece_of cloud (GoodFound zero) one)) }
{
    match one {
        Found::Good(one) => push_piece(pieces, cloud, zero, one),
        Found::Unasked | Found::Bad(_) => Ok(()),
    }
}

fn push_piece(pieces: &mut Vec<Piece>, cloud: u8, zero: Blob, one: Blob) -> Result<(), Memory>
    ensures { OnOk result
        (pieces.new.items
        ≡ pieces.old.items ++ record { cloud = cloud; zero = zero; one = one } ∷ []) }
{
    match pieces.push(Piece { cloud, zero, one }) {
        Ok(()) => Ok(()),
        Err(_) => Err(Memory),
    }
}
