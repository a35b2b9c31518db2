//! The products of one factor with all bytes, by the two halves of a byte.

ghost use Rattle.std.specs.Prelude.{◌≡◌, ℕ, ◌*◌, ◌%◌, slice_index};
ghost use Rattle.nc_gf256.specs.Field.{mul};
ghost use Rattle.nc_lanes.specs.Lanes.{HasLanes};

use super::lanes::{products, sum};
use std::simd::prelude::*;

/// The products of a factor with the bytes 0 to 15, and with 16 times each of these; both twice, since a look-up reads
/// within 16 lanes.
#[derive(Clone, Copy)]
pub struct Multiples {
    factor: u8,
    low: u8x32,
    high: u8x32,
    ghost low_products: { HasLanes low (λ k. mul factor (k % 16)) },
    ghost high_products: { HasLanes high (λ k. mul factor (16 * (k % 16))) },
}

static LOW: [u8; 32] = [
    0, 1, 2, 3, 4, 5, 6, 7, 8, 9, 10, 11, 12, 13, 14, 15, 0, 1, 2, 3, 4, 5, 6, 7, 8, 9, 10, 11, 12,
    13, 14, 15,
];

static HIGH: [u8; 32] = [
    0, 16, 32, 48, 64, 80, 96, 112, 128, 144, 160, 176, 192, 208, 224, 240, 0, 16, 32, 48, 64, 80,
    96, 112, 128, 144, 160, 176, 192, 208, 224, 240,
];

impl Multiples {
    #[inline(always)]
    pub fn of(factor: u8) -> Multiples
        ensures { result.factor ≡ factor }
    {
        let factors = u8x32::splat(factor);
        Multiples {
            factor,
            low: products(factors, u8x32::from_array(LOW)),
            high: products(factors, u8x32::from_array(HIGH)),
        }
    }

    /// The factor times each lane.
    #[inline(always)]
    pub fn times(&self, v: u8x32) -> u8x32
        ensures { HasLanes result (λ k. mul self.now.factor (slice_index v k)) }
    {
        sum(
            self.low.swizzle_dyn_within::<16>(v & u8x32::splat(15)),
            self.high.swizzle_dyn_within::<16>(v >> u8x32::splat(4)),
        )
    }
}
