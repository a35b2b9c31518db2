ghost use Rattle.nc_name.specs.Keys.{Slots};

use crate::opening::is_digested;
use crate::{Seen, open, seal, seal_around};
use nc_name::{Blob, Key, Name};
use std::test::Fail;

/// The frame of 0404 on cloud 2 of 4 under chunk "a" slot 0 row 0, its SHA-256 by the program sha256sum.
const FRAME: [u8; 58] = [
    0x4e, 0x43, 0x46, 0x31, 0x02, 0x04, 0x00, 0x08, b'c', b'-', b'6', b'1', b'-', b'0', b'-', b'0',
    0x00, 0x00, 0x00, 0x00, 0x00, 0x00, 0x00, 0x02, 0x04, 0x04, 0xf1, 0x72, 0x5a, 0x9d, 0xba, 0x0e,
    0x31, 0xa4, 0x78, 0xb9, 0xfe, 0xf7, 0x9f, 0x21, 0x92, 0x33, 0x03, 0x69, 0x03, 0xcd, 0xd7, 0x48,
    0x0e, 0x04, 0xfa, 0xb3, 0xf1, 0x46, 0xb0, 0x6d, 0x52, 0xd4,
];

/// The same front with a payload of 2^64 - 1 bytes, as it says.
const HOSTILE: [u8; 58] = [
    0x4e, 0x43, 0x46, 0x31, 0x02, 0x04, 0x00, 0x08, b'c', b'-', b'6', b'1', b'-', b'0', b'-', b'0',
    0xff, 0xff, 0xff, 0xff, 0xff, 0xff, 0xff, 0xff, 0, 0, 0, 0, 0, 0, 0, 0, 0, 0, 0, 0, 0, 0, 0, 0,
    0, 0, 0, 0, 0, 0, 0, 0, 0, 0, 0, 0, 0, 0, 0, 0, 0, 0,
];

fn chunk(name: Name) -> Key
    ensures { Slots result }
{
    Key::Chunk {
        name,
        slot: 0,
        row: 0,
    }
}

/// The SHA-256 of no bytes, by FIPS 180-4.
const OF_NONE: [u8; 32] = [
    0xe3, 0xb0, 0xc4, 0x42, 0x98, 0xfc, 0x1c, 0x14, 0x9a, 0xfb, 0xf4, 0xc8, 0x99, 0x6f, 0xb9, 0x24,
    0x27, 0xae, 0x41, 0xe4, 0x64, 0x9b, 0x93, 0x4c, 0xa4, 0x95, 0x99, 0x1b, 0x78, 0x52, 0xb8, 0x55,
];

/// "abc", and its SHA-256 by FIPS 180-4.
const ABC: [u8; 35] = [
    b'a', b'b', b'c', 0xba, 0x78, 0x16, 0xbf, 0x8f, 0x01, 0xcf, 0xea, 0x41, 0x41, 0x40, 0xde, 0x5d,
    0xae, 0x22, 0x23, 0xb0, 0x03, 0x61, 0xa3, 0x96, 0x17, 0x7a, 0x9c, 0xb4, 0x10, 0xff, 0x61, 0xf2,
    0x00, 0x15, 0xad,
];

/// The payload that was seen.
fn payload_of<'a>(seen: &Seen<'a>) -> Option<&'a [u8]> {
    match seen {
        Seen::Payload(payload) => Some(*payload),
        _ => None,
    }
}

/// The cloud and width that a misplaced frame says.
fn said_by(seen: &Seen) -> Option<(u8, u8)> {
    match seen {
        Seen::Misplaced {
            said_cloud,
            said_width,
        } => Some((*said_cloud, *said_width)),
        _ => None,
    }
}

#[test]
fn a_payload_is_sealed_and_opened(rt: HostRuntime) -> Result<(), Fail> {
    let key = chunk(Name::read("a")?);
    let blob = seal(rt.alloc(), 2, 4, &key, &[4, 4])?;
    assert_eq!(rt; blob.bytes(), FRAME.as_slice());
    let seen = open(2, 4, &key, blob.bytes());
    assert_eq!(rt; payload_of(&seen).ok_or("no payload")?, [4, 4].as_slice());
    Ok(())
}

#[test]
fn what_is_no_frame_of_here_is_told(rt: HostRuntime) -> Result<(), Fail> {
    let mut longer = FRAME.to_vec(rt.alloc())?;
    longer.push(0)?;
    for (cloud, width, name, bytes, said) in [
        (1, 4, "a", FRAME.as_slice(), Some((2, 4))),
        (2, 5, "a", FRAME.as_slice(), Some((2, 4))),
        (2, 4, "b", FRAME.as_slice(), None),
        (2, 4, "a", longer.as_slice(), None),
        (2, 4, "a", &FRAME[..57], None),
        (2, 4, "a", HOSTILE.as_slice(), None),
    ] {
        let seen = open(cloud, width, &chunk(Name::read(name)?), bytes);
        assert_eq!(rt; said_by(&seen), said);
        assert!(rt; payload_of(&seen).is_none());
    }
    Ok(())
}

#[test]
fn a_payload_without_room_is_sealed_too(rt: HostRuntime) -> Result<(), Fail> {
    let key = chunk(Name::read("a")?);
    let payload = Blob::from_slice(rt.alloc(), &[4, 4])?;
    let blob = seal_around(rt.alloc(), 2, 4, &key, payload)?;
    assert_eq!(rt; blob.bytes(), FRAME.as_slice());
    Ok(())
}

#[test]
fn digests_are_those_of_fips_180_4(rt: HostRuntime) {
    assert!(rt; is_digested(&OF_NONE, 0));
    assert!(rt; is_digested(&ABC, 3));
    assert!(rt; !is_digested(&ABC, 2));
}
