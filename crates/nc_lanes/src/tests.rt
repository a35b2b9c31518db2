//! Kernels beside the plain loop.

use super::*;
use std::alloc::{AllocError, Global};
use std::test::Fail;

// So many bytes, place by place a step further.
fn bytes(alloc: Global, len: usize, step: u8) -> Result<Vec<u8>, AllocError> {
    (0..len)
        .map(|i| ((i % 256) as u8).wrapping_mul(step))
        .collect(alloc)
}

#[test]
fn a_byte_past_32_lanes_and_no_bytes(rt: HostRuntime) {
    let mut dst = [0; 33];
    mul_add(&mut dst, &[0x80; 33], 0x02);
    assert_eq!(rt; dst, [0x1D; 33]);
    let mut none = [];
    mul_add(&mut none, &[], 0x02);
    assert_eq!(rt; none, []);
}

#[test]
fn each_length_is_as_the_plain_loop(rt: HostRuntime) -> Result<(), Fail> {
    for len in [0, 1, 31, 32, 33, 64, 65, 1000] {
        let a = bytes(rt.alloc(), len, 7)?;
        let b = bytes(rt.alloc(), len, 29)?;
        assert_eq!(rt; a.len(), b.len());
        let mut sums = a.clone()?;
        xor_into(&mut sums, &b);
        let mut products = a.clone()?;
        scale(&mut products, 0x8E);
        let mut both = a.clone()?;
        mul_add(&mut both, &b, 0xB7);
        let mut total = 0;
        for (i, (x, y)) in a.iter().zip(&b).enumerate() {
            assert_eq!(rt; sums.get(i), Some(&add(*x, *y)));
            assert_eq!(rt; products.get(i), Some(&mul(0x8E, *x)));
            assert_eq!(rt; both.get(i), Some(&add(*x, mul(0xB7, *y))));
            total = add(total, mul(*x, *y));
        }
        assert_eq!(rt; dot(&a, &b), total);
    }
    Ok(())
}
