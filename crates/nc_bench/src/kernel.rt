//! The kernel that adds a multiple of one slice to another.

ghost use Rattle.std.specs.Prelude.{◌≡◌, length};

use crate::fault::Fault;
use crate::pattern::bytes_of;
use crate::words::Kernel;
use nc_gf256::mul;
use nc_lanes::mul_add;
use std::alloc::Global;
use std::rt::Clock;
use std::time::{Duration, Instant};

const FACTOR: u8 = 0x8E;

/// The least time of a turn, once a first pass has given the field's own products byte by byte.
pub fn time_kernel<R: Clock>(rt: &R, alloc: Global, job: &Kernel) -> Result<Duration, Fault> {
    let src = bytes_of(alloc, job.bytes)?;
    let mut dst = vec![in alloc; 0; job.bytes]?;
    least_turn(rt, &mut dst, &src, job)
}

fn least_turn<R: Clock>(
    rt: &R,
    dst: &mut [u8],
    src: &[u8],
    job: &Kernel,
) -> Result<Duration, Fault> {
    if dst.len() != src.len() {
        return Err(Fault::Wrong);
    }
    mul_add(dst, src, FACTOR);
    if !are_multiples(dst, src) {
        return Err(Fault::Wrong);
    }
    let mut least = Duration::MAX;
    for _ in 0..job.turns {
        let start = Instant::now(rt)?;
        pass(dst, src, job.passes);
        least = least.min(start.elapsed(rt)?);
    }
    Ok(least)
}

/// Adds the multiple so many times.
fn pass(dst: &mut [u8], src: &[u8], passes: u32)
    requires { length src.now ≡ length dst.old }
{
    for _ in 0..passes {
        mul_add(dst, src, FACTOR);
    }
}

/// Whether each byte is the multiple of the byte in its place.
fn are_multiples(dst: &[u8], src: &[u8]) -> bool {
    dst.iter().zip(src).all(|(x, y)| *x == mul(FACTOR, *y))
}
