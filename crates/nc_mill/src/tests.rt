//! The file of a mill, and one whole mill, beside what another program computed: its ChaCha20 was
//! checked with the vectors of RFC 8439.
use crate::file::{mill_key, stream_of};
use crate::mill;
use nc_words::Setting;
use sha2::{Digest, Sha256};
use std::test::Fail;

/// The SHA-256 of the first 100 bytes of the stream of number 7.
const FIRST: [u8; 32] = [
    0xf6, 0x15, 0x11, 0xee, 0x59, 0xc2, 0xee, 0x72, 0x14, 0x59, 0xae, 0x48, 0xb8, 0xbf, 0x44, 0xf4,
    0xe8, 0x2b, 0x5b, 0x7c, 0xbd, 0x6e, 0xa4, 0xd1, 0x7e, 0xdb, 0x18, 0xd7, 0xfc, 0x63, 0x00, 0x51,
];

/// The SHA-256 of all 8,388,608 bytes of its file.
const WHOLE: [u8; 32] = [
    0x90, 0x63, 0x70, 0x28, 0x0e, 0xd6, 0x0a, 0x88, 0xd0, 0x55, 0xa5, 0xa5, 0xfd, 0xa4, 0x11, 0xcf,
    0xf2, 0x30, 0xbf, 0xa8, 0x78, 0xf3, 0x8c, 0x78, 0xc7, 0x7f, 0x85, 0x63, 0x5b, 0x03, 0x69, 0xb5,
];

#[test]
fn the_stream_is_that_of_its_key(rt: HostRuntime) -> Result<(), Fail> {
    let stream = stream_of(rt.alloc(), &mill_key(7), 100)?;
    assert_eq!(rt; Sha256::digest(stream.bytes()), FIRST);
    Ok(())
}

#[test]
fn the_file_comes_back(rt: HostRuntime) -> Result<(), Fail> {
    let milled = mill(&rt, rt.alloc(), &Setting::standard(), 4, 7)?;
    assert_eq!(rt; milled.lost, 3);
    assert_eq!(rt; milled.fetched, 3);
    assert_eq!(rt; milled.digest, WHOLE);
    Ok(())
}
