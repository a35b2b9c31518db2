//! Byte strings: what every other crate says of bytes, of their parts and of numbers in them.
#![tactic(auto)]

ghost use Rattle.std.specs.Prelude.{◌≡◌, ◌↔◌, ◌+◌, ◌-◌, ◌≤◌, length, IsTrue, take};
ghost use Rattle.nc_bytes.specs.Bytes.{AreBytes, padded, part, bytes_2, bytes_8};

use byteorder::{BigEndian, ByteOrder};

/// The `n` bytes of `bytes` from place `at` on.
pub fn part_of(bytes: &[u8], at: usize, n: usize) -> &[u8]
    requires { at + n ≤ length bytes.now }
    ensures { result.now ≡ part at n bytes.now }
{
    let (_, rest) = bytes.split_at(at);
    let (front, _) = rest.split_at(n);
    front
}

/// Whether two byte strings are the same.
pub fn is_same(a: &[u8], b: &[u8]) -> bool
    ensures { IsTrue result ↔ (a.now ≡ b.now) }
{
    a == b
}

/// The bytes, and zeros after them.
pub fn padded<const N: usize>(bytes: &[u8]) -> [u8; N]
    requires { length bytes.now ≤ N }
    ensures { result ≡ padded N bytes.now }
{
    let mut whole = [0; N];
    let (front, _) = whole.split_at_mut(bytes.len());
    front.copy_from_slice(bytes);
    whole
}

/// Tells that what a slice has are bytes. It computes nothing, as each function whose name begins with `told_`.
pub fn told_bytes(bytes: &[u8])
    ensures { AreBytes bytes.now }
{
    let _ = bytes;
}

/// A number in two bytes, the high one first.
#[tactic(auto, unfolding(crate::specs::Bytes::bytes_2))]
pub fn u16_bytes(n: u16) -> [u8; 2]
    ensures { result ≡ bytes_2 n }
{
    let mut digits = [0; 2];
    BigEndian::write_u16(&mut digits, n);
    digits
}

/// A number in eight bytes, the high one first.
#[tactic(auto, unfolding(crate::specs::Bytes::bytes_8))]
pub fn u64_bytes(n: u64) -> [u8; 8]
    ensures { result ≡ bytes_8 n }
{
    let mut digits = [0; 8];
    BigEndian::write_u64(&mut digits, n);
    digits
}

/// The number whose two bytes stand at place `at`.
#[tactic(auto, unfolding(crate::specs::Bytes::bytes_2))]
pub fn u16_at(bytes: &[u8], at: usize) -> u16
    requires { at + 2 ≤ length bytes.now }
    ensures { bytes_2 result ≡ part at 2 bytes.now }
{
    let b = part_of(bytes, at, 2);
    u16::from_be_bytes([b[0], b[1]])
}

/// The number whose eight bytes stand at place `at`.
#[tactic(auto, unfolding(crate::specs::Bytes::bytes_8))]
pub fn u64_at(bytes: &[u8], at: usize) -> u64
    requires { at + 8 ≤ length bytes.now }
    ensures { bytes_8 result ≡ part at 8 bytes.now }
{
    let b = part_of(bytes, at, 8);
    u64::from_be_bytes([b[0], b[1], b[2], b[3], b[4], b[5], b[6], b[7]])
}

#[cfg(test)]
mod tests {
    use super::*;

    #[test]
    fn parts_are_compared(rt: HostRuntime) {
        assert!(rt; is_same(part_of(b"abcdef", 2, 3), b"cde"));
        assert!(rt; !is_same(part_of(b"abcdef", 2, 3), b"cdf"));
        assert!(rt; is_same(part_of(b"abc", 3, 0), b""));
    }

    #[test]
    fn numbers_stand_high_byte_first(rt: HostRuntime) {
        assert_eq!(rt; u16_bytes(0x0102), [1, 2]);
        assert_eq!(rt; u64_bytes(0x0102_0304_0506_0708), [1, 2, 3, 4, 5, 6, 7, 8]);
        assert_eq!(rt; u16_at(&[9, 1, 2], 1), 0x0102);
        assert_eq!(rt;
            u64_at(&[9, 1, 2, 3, 4, 5, 6, 7, 8], 1),
            0x0102_0304_0506_0708
        );
    }
}
