//! Kernels on byte slices whose bytes are elements of the field of 256 elements: 32 bytes at a time, and what is left
//! after the last 32 byte by byte.
#![tactic(auto)]

ghost use Rattle.std.specs.Prelude.{◌≡◌, ℕ, ◌*◌, ◌≤◌, length, slice_index, bit_xor};
ghost use Rattle.nc_gf256.specs.Field.{mul};
ghost use Rattle.nc_gf256.specs.Rows.{dot};

use lanes::{load, products, store, sum};
use multiples::Multiples;
use nc_gf256::{add, mul};
use std::simd::prelude::*;

mod lanes;
mod multiples;
#[cfg(test)]
mod tests;

/// Adds `src` to `dst`, byte by byte.
pub fn xor_into(dst: &mut [u8], src: &[u8])
    requires { length src.now ≡ length dst.old }
    ensures { (i : ℕ) → slice_index dst.new i ≡ bit_xor (slice_index dst.old i) (slice_index src.now i) }
{
    let blocks = dst.len() / 32;
    for block in 0..blocks {
        let at = 32 * block;
        store(dst, at, sum(load(dst, at), load(src, at)));
    }
    for i in 32 * blocks..dst.len() {
        dst[i] = add(dst[i], src[i]);
    }
}

/// Multiplies each byte of `dst` by `c`.
pub fn scale(dst: &mut [u8], c: u8)
    ensures { (i : ℕ) → slice_index dst.new i ≡ mul c (slice_index dst.old i) }
{
    let multiples = Multiples::of(c);
    let blocks = dst.len() / 32;
    for block in 0..blocks {
        let at = 32 * block;
        store(dst, at, multiples.times(load(dst, at)));
    }
    for i in 32 * blocks..dst.len() {
        dst[i] = mul(c, dst[i]);
    }
}

/// Adds `c` times `src` to `dst`, byte by byte.
pub fn mul_add(dst: &mut [u8], src: &[u8], c: u8)
    requires { length src.now ≡ length dst.old }
    ensures { (i : ℕ) → slice_index dst.new i
        ≡ bit_xor (slice_index dst.old i) (mul c (slice_index src.now i)) }
{
    let multiples = Multiples::of(c);
    let blocks = dst.len() / 32;
    for block in 0..blocks {
        let at = 32 * block;
        store(dst, at, sum(load(dst, at), multiples.times(load(src, at))));
    }
    for i in 32 * blocks..dst.len() {
        dst[i] = add(dst[i], mul(c, src[i]));
    }
}

/// The sum of the products of `a` and `b`, byte by byte.
pub fn dot(a: &[u8], b: &[u8]) -> u8
    requires { length b.now ≡ length a.now }
    ensures { result ≡ dot (length a.now) a.now b.now }
{
    let blocks = a.len() / 32;
    let mut total = dot_of_blocks(a, b, blocks);
    for i in 32 * blocks..a.len() {
        total = add(total, mul(a[i], b[i]));
    }
    total
}

/// The sum of the products of the bytes in the first blocks of 32.
fn dot_of_blocks(a: &[u8], b: &[u8], blocks: usize) -> u8
    requires a { 32 * blocks ≤ length a.now }
    requires b { 32 * blocks ≤ length b.now }
    ensures { result ≡ dot (32 * blocks) a.now b.now }
{
    if blocks == 0 {
        return 0;
    }
    let mut sums = u8x32::splat(0);
    for block in 0..blocks {
        let at = 32 * block;
        sums = sum(sums, products(load(a, at), load(b, at)));
    }
    sums.reduce_xor()
}
