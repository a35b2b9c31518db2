//! Vectors of 32 bytes, lane by lane.

ghost use Rattle.std.specs.Prelude.{◌+◌, ◌/◌, ◌≤◌, length, slice_index, bit_xor};
ghost use Rattle.nc_gf256.specs.Field.{double, if_odd, mul};
ghost use Rattle.nc_lanes.specs.Lanes.{HasLanes, Stores};

use std::simd::prelude::*;

/// The 32 bytes from place `at` on.
#[inline(always)]
pub fn load(bytes: &[u8], at: usize) -> u8x32
    requires { at + 32 ≤ length bytes.now }
    ensures { HasLanes result (λ k. slice_index bytes.now (at + k)) }
{
    u8x32::from_slice(&bytes[at..])
}

/// Writes the lanes over the 32 bytes from place `at` on.
#[inline(always)]
pub fn store(bytes: &mut [u8], at: usize, v: u8x32)
    requires { at + 32 ≤ length bytes.old }
    ensures { Stores at v bytes.old bytes.new }
{
    v.copy_to_slice(&mut bytes[at..]);
}

/// The sums of the lanes.
#[inline(always)]
pub fn sum(a: u8x32, b: u8x32) -> u8x32
    ensures { HasLanes result (λ k. bit_xor (slice_index a k) (slice_index b k)) }
{
    a ^ b
}

/// The lanes times the element 2.
#[inline(always)]
fn doubled(v: u8x32) -> u8x32
    ensures { HasLanes result (λ k. double (slice_index v k)) }
{
    let carry = v
        .simd_ge(u8x32::splat(0x80))
        .select(u8x32::splat(0x1D), u8x32::splat(0));
    (v + v) ^ carry
}

/// The lanes of `v` where those of `b` are odd, else 0.
#[inline(always)]
fn where_odd(b: u8x32, v: u8x32) -> u8x32
    ensures { HasLanes result (λ k. if_odd (slice_index b k) (slice_index v k)) }
{
    (b & u8x32::splat(1))
        .simd_eq(u8x32::splat(1))
        .select(v, u8x32::splat(0))
}

/// The lanes without their lowest bits.
#[inline(always)]
fn halved(v: u8x32) -> u8x32
    ensures { HasLanes result (λ k. slice_index v k / 2) }
{
    v >> u8x32::splat(1)
}

/// The products of the lanes.
#[inline(always)]
pub fn products(a: u8x32, b: u8x32) -> u8x32
    ensures { HasLanes result (λ k. mul (slice_index a k) (slice_index b k)) }
{
    let mut product = u8x32::splat(0);
    let mut multiple = a;
    let mut bits = b;
    for _ in 0..8usize {
        product = sum(product, where_odd(bits, multiple));
        multiple = doubled(multiple);
        bits = halved(bits);
    }
    product
}
