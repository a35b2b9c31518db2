ghost use Rattle.std.specs.Prelude.{◌≡◌, ◌+◌, ◌*◌, length, slice_set};
ghost use Rattle.sha2.specs.Sha256.{sha256};
ghost use Rattle.nc_meta.specs.Metas.{IsLive};
ghost use Rattle.nc_meta.specs.Parts.{IsGeneration};
ghost use Rattle.nc_meta.specs.declared.meta.Meta.TheVariants.{Live as LiveMeta};
ghost use Rattle.nc_state.specs.Right.{free_slot as free_slot_of};
ghost use Rattle.nc_repair.specs.Mending.{mended_by};
ghost use Rattle.nc_repair.specs.Survivors.{HasLost};

use crate::marks::marks_of_both;
use nc_meta::{Live, Meta};
use nc_name::Blob;
use nc_nextloss::GoodCode;
use nc_state::free_slot;
use nc_write::told_plans;
use std::thread::Threads;

/// The metadata after the repair of the lost cloud by this code, whose new chunks are these.
pub(crate) fn mended_live<R: Threads + Sync>(
    rt: &R,
    width: u8,
    old: &Live,
    generation: u64,
    lost: u8,
    good: &GoodCode,
    zero: &Blob,
    one: &Blob,
    workers: u8,
) -> Live
    requires next { generation ≡ old.now.generation + 1 }
    requires last { IsGeneration generation }
    requires lost { HasLost width lost old.now }
    requires width { good.now.code.width ≡ width }
    ensures is { result ≡ mended_by lost old.now good.now (sha256 zero.now) (sha256 one.now) }
    ensures fits { IsLive width result }
{
    told_plans(good.witnesses());
    let _kept = good.code().width();
    let marks = marks_of_both(rt, zero, one, workers);
    Live {
        generation,
        len: old.len,
        code: *good.code(),
        slots: turned(width, old, lost),
        marks: renewed(width, old, lost, &marks.zero, &marks.one),
        witnesses: Some(*good.witnesses()),
    }
}

/// The slots, with that of the lost cloud turned over.
fn turned(width: u8, old: &Live, lost: u8) -> [u8; 10]
    requires lost { HasLost width lost old.now }
    ensures is { result ≡ slice_set old.now.slots lost (free_slot_of (LiveMeta old.now) lost) }
    ensures long { length result ≡ 10 }
{
    let mut slots = old.slots;
    slots[usize::from(lost)] = free_slot(&Meta::Live(*old), lost);
    slots
}

/// The marks, with both of the lost cloud renewed.
fn renewed(width: u8, old: &Live, lost: u8, zero: &[u8; 32], one: &[u8; 32]) -> [[u8; 32]; 20]
    requires lost { HasLost width lost old.now }
    ensures is { result
        ≡ slice_set (slice_set old.now.marks (2 * lost) zero.now) (2 * lost + 1) one.now }
{
    let mut marks = old.marks;
    marks[2 * usize::from(lost)] = *zero;
    marks[2 * usize::from(lost) + 1] = *one;
    marks
}
