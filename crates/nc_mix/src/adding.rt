ghost use Rattle.std.specs.Prelude.{◌≡◌, ◌+◌, ◌*◌, ◌≤◌, length, replicate, IfOk};
ghost use Rattle.std.specs.Borrow.{Bor};
ghost use Rattle.std.specs.List.{concat};
ghost use Rattle.nc_native.specs.Native.{AllLong};
ghost use Rattle.nc_mix.specs.Mixing.{HasAdded, HasMultiples, lent, mixed_part, mixed_parts};

use nc_lanes::mul_add;

/// Writes a part of each row's mix, one after another: so many bytes from `start` on.
pub fn mix_parts(
    dst: &mut [u8],
    sources: &[&[u8]],
    rows: &[[u8; 16]],
    size: usize,
    start: usize,
    count: usize,
)
    requires few { length (lent sources.now) ≤ 16 }
    requires long { AllLong size (lent sources.now) }
    requires fits { start + count ≤ size }
    requires room { length dst.old ≡ length rows.now * count }
    ensures { dst.new ≡ concat (mixed_parts start count rows.now (lent sources.now)) }
{
    if let Some((row, rest)) = rows.split_first() {
        let (part, after) = dst.split_at_mut(count);
        mix_part(part, sources, row, size, start);
        mix_parts(after, sources, rest, size, start, count);
    }
}

/// Writes the part of one row's mix that begins at `start`.
fn mix_part(dst: &mut [u8], sources: &[&[u8]], row: &[u8; 16], size: usize, start: usize)
    requires few { length (lent sources.now) ≤ 16 }
    requires long { AllLong size (lent sources.now) }
    requires fits { start + length dst.old ≤ size }
    ensures { dst.new ≡ mixed_part start (length dst.old) row.now (lent sources.now) }
{
    dst.fill(0);
    add_sources(dst, sources, row, size, start);
}

/// Adds the multiples of the sources to the part of the sum that begins at `start`.
fn add_sources(dst: &mut [u8], sources: &[&[u8]], row: &[u8; 16], size: usize, start: usize)
    requires few { length (lent sources.now) ≤ 16 }
    requires long { AllLong size (lent sources.now) }
    requires fits { start + length dst.old ≤ size }
    ensures { HasAdded (length (lent sources.now)) row.now (lent sources.now) start dst.old dst.new }
{
    for i in 0..sources.len() {
        add_from(dst, sources[i], start, row[i]);
    }
}

/// Adds `factor` times the bytes of `source` from `start` on.
fn add_from(dst: &mut [u8], source: &[u8], start: usize, factor: u8)
    requires { start + length dst.old ≤ length source.now }
    ensures { HasMultiples factor source.now start dst.old dst.new }
{
    if factor == 0 {
        return;
    }
    let end = start + dst.len();
    mul_add(dst, &source[start..end], factor);
}
