//! Worked squares of size 2.

ghost use Rattle.std.specs.Prelude.{◌≡◌, ℕ, ◌≤◌, slice_index};

use super::*;

// The row that begins with the two bytes.
fn row(a: u8, b: u8) -> [u8; 16]
    ensures { (k : ℕ) → 2 ≤ k → slice_index result k ≡ 0 }
{
    let mut row = [0; 16];
    row[0] = a;
    row[1] = b;
    row
}

// The square of size 2 with these rows.
fn square(first: [u8; 16], second: [u8; 16]) -> Square
    requires first { (k : ℕ) → 2 ≤ k → slice_index first k ≡ 0 }
    requires second { (k : ℕ) → 2 ≤ k → slice_index second k ≡ 0 }
    ensures { result.size ≡ 2 }
{
    let mut cells = [[0; 16]; 16];
    cells[0] = first;
    cells[1] = second;
    Square { size: 2, cells }
}

#[test]
fn inverts_independent_rows_and_shows_that_others_are_dependent(rt: HostRuntime) {
    match invert(&square(row(0x01, 0x01), row(0x01, 0x02))) {
        Outcome::Inverse(b) => {
            let cells = b.cells;
            assert_eq!(rt; cells[0], row(0xF5, 0xF4));
            assert_eq!(rt; cells[1], row(0xF4, 0xF4));
        }
        Outcome::Kernel(_) => assert!(rt; false),
    }
    match invert(&square(row(0x01, 0x02), row(0x02, 0x04))) {
        Outcome::Inverse(_) => assert!(rt; false),
        Outcome::Kernel(v) => {
            assert_ne!(rt; v[1], 0);
            assert_eq!(rt; v, row(nc_gf256::mul(0x02, v[1]), v[1]));
        }
    }
}

#[test]
fn multiplies_squares_and_vectors(rt: HostRuntime) {
    let a = square(row(0x02, 0x00), row(0x03, 0x01));
    let b = square(row(0x80, 0x01), row(0x01, 0x8E));
    let cells = product(&a, &b).cells;
    assert_eq!(rt; cells[0], row(0x1D, 0x02));
    assert_eq!(rt; cells[1], row(0x9C, 0x8D));
    assert_eq!(rt; apply(&a, &row(0x80, 0x01)), row(0x1D, 0x9C));
    assert_eq!(rt; row_times(&row(0x02, 0x00), &b), row(0x1D, 0x02));
}
