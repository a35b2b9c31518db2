ghost use Rattle.std.specs.Prelude.{◌≡◌, ◌<◌, ◌≤◌};
ghost use Rattle.nc_code.specs.Parts.{IsCode};
ghost use Rattle.nc_code.specs.Striped.{striped_entry, striped_row, striped_code};

use crate::code::Code;

/// The code of two stripes with a sum and a weighted sum each, as in RAID-6: native `2c+s` is row `s` of cloud `c`, cloud
/// `width - 2` has the sums of the stripes, and cloud `width - 1` the sums with weight `2^c`.
pub fn striped(width: u8) -> Code
    requires wide { 4 ≤ width }
    requires narrow { width ≤ 10 }
    ensures code { result ≡ striped_code width }
    ensures width { result.width ≡ width }
    ensures kept { IsCode result }
{
    let mut rows = [[0; 16]; 20];
    for row in 0..20u8 {
        rows[row as usize] = row_of(width, row);
    }
    Code::new(width, &rows)
}

fn row_of(width: u8, row: u8) -> [u8; 16]
    requires wide { 4 ≤ width }
    requires narrow { width ≤ 10 }
    requires row { row < 20 }
    ensures { result ≡ striped_row width row }
{
    let mut entries = [0; 16];
    for i in 0..16u8 {
        entries[i as usize] = entry_of(width, row / 2, row % 2, i);
    }
    entries
}

fn entry_of(width: u8, cloud: u8, pair: u8, i: u8) -> u8
    requires wide { 4 ≤ width }
    requires narrow { width ≤ 10 }
    requires cloud { cloud < 10 }
    requires pair { pair < 2 }
    requires native { i < 16 }
    ensures { result ≡ striped_entry width cloud pair i }
{
    if i >= 2 * (width - 2) {
        0
    } else if cloud < width - 2 {
        u8::from(i == 2 * cloud + pair)
    } else if i % 2 != pair {
        0
    } else if cloud == width - 2 {
        1
    } else if cloud == width - 1 {
        1 << (i / 2)
    } else {
        0
    }
}
