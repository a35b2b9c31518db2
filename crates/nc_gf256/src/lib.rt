//! The field of 256 elements: the polynomials over two elements modulo `x^8+x^4+x^3+x^2+1`. A byte's bit i is the
//! coefficient of `x^i`.
#![tactic(auto)]

ghost use Rattle.std.specs.Prelude.{◌≡◌, ◌↔◌, bit_xor, IsNone, IfSome};
ghost use Rattle.nc_gf256.specs.Field.{mul};

use tables::{logarithm, power};

pub mod laws;
mod rows;
mod tables;

pub use rows::plus_times;

/// The sum of two elements, which is also their difference.
pub fn add(a: u8, b: u8) -> u8
    ensures { result ≡ bit_xor a b }
{
    a ^ b
}

/// The product of two elements.
pub fn mul(a: u8, b: u8) -> u8
    ensures { result ≡ mul a b }
{
    if a == 0 || b == 0 {
        return 0;
    }
    power(logarithm(a) as usize + logarithm(b) as usize)
}

/// The element whose product with `a` is 1. Only 0 has none.
pub fn inv(a: u8) -> Option<u8>
    ensures none { IsNone result ↔ (a ≡ 0) }
    ensures inverse { IfSome result (λ b. mul a b ≡ 1) }
{
    if a == 0 {
        return None;
    }
    Some(power(255 - logarithm(a) as usize))
}

#[cfg(test)]
mod tests {
    use super::*;

    #[test]
    fn products_reduce(rt: HostRuntime) {
        for (a, b, product) in [(0x02, 0x80, 0x1D), (0x02, 0x8E, 0x01), (0x03, 0x80, 0x9D)] {
            assert_eq!(rt; mul(a, b), product, "{a} times {b}");
        }
        assert_eq!(rt; add(0x53, 0xCA), 0x99);
    }

    #[test]
    fn all_but_zero_have_an_inverse(rt: HostRuntime) {
        for (a, inverse) in [
            (0x00, None),
            (0x01, Some(0x01)),
            (0x02, Some(0x8E)),
            (0x03, Some(0xF4)),
        ] {
            assert_eq!(rt; inv(a), inverse, "of {a}");
        }
    }

    #[test]
    fn a_multiple_is_added_to_a_row(rt: HostRuntime) {
        assert_eq!(rt;
            plus_times(&[0x01, 0x53, 0x07], &[0x80, 0x00, 0x8E], 0x02),
            [0x1C, 0x53, 0x06]
        );
    }
}
