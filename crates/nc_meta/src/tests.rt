ghost use Rattle.std.specs.Prelude.{◌≤◌};

use crate::{Live, Meta, same_meta};
use nc_name::{Blob, Memory};
use std::alloc::Global;
use std::test::Fail;

/// What a payload at width 4 says. The bytes of its rows are 0, 1 and so on, and so are those of its marks.
#[derive(Clone, Copy)]
struct Said {
    kind: u8,
    generation: u64,
    len: u64,
    slot: u8,
}

/// A live payload, of which all is in range.
const SAID: Said = Said {
    kind: 1,
    generation: 7,
    len: 8,
    slot: 1,
};

fn payload(alloc: Global, said: &Said, tail: &[u8]) -> Result<Vec<u8>, Memory> {
    let mut bytes = Vec::new(alloc);
    bytes.extend_from_slice(b"NCM1")?;
    bytes.push(said.kind)?;
    bytes.extend_from_slice(&said.generation.to_be_bytes())?;
    bytes.extend_from_slice(&said.len.to_be_bytes())?;
    for i in 0..32u8 {
        bytes.push(i)?;
    }
    bytes.extend_from_slice(&[0, said.slot, 0, 1])?;
    for i in 0..256u16 {
        bytes.push(i as u8)?;
    }
    bytes.extend_from_slice(tail)?;
    Ok(bytes)
}

/// A live payload at width 10 whose rows, slots, marks and plans are 0.
fn wide_payload(alloc: Global, flag: u8, plan_bytes: u16) -> Result<Vec<u8>, Memory> {
    let mut bytes = Vec::new(alloc);
    bytes.extend_from_slice(b"NCM1\x01\x00\x00\x00\x00\x00\x00\x00\x01")?;
    for _ in 0..978u16 {
        bytes.push(0)?;
    }
    bytes.push(flag)?;
    for _ in 0..plan_bytes {
        bytes.push(0)?;
    }
    Ok(bytes)
}

/// A flag, and plans for the losses of four clouds.
const WITNESSES: [u8; 37] = [
    1, 0, 0, 0, 1, 1, 1, 2, 2, 2, 1, 0, 1, 1, 2, 3, 4, 5, 6, 0, 0, 0, 0, 0, 0, 0, 0, 0, 1, 1, 1, 7,
    8, 9, 10, 11, 12,
];

/// The same with a 2 at a place.
fn with_two(at: usize) -> [u8; 37]
    requires { at ≤ 36 }
{
    let mut tail = WITNESSES;
    tail[at] = 2;
    tail
}

/// What is read of a file that has a content.
fn live(payload: &[u8]) -> Option<Live> {
    match Meta::read(4, payload) {
        Some(Meta::Live(live)) => Some(live),
        _ => None,
    }
}

#[test]
fn a_live_payload_is_read(rt: HostRuntime) -> Result<(), Fail> {
    let payload = payload(rt.alloc(), &SAID, &WITNESSES)?;
    let read = live(payload.as_slice()).ok_or("not read")?;
    assert_eq!(rt; (read.generation, read.len), (7, 8));
    assert_eq!(rt;
        read.code.rows[2],
        [8, 9, 10, 11, 0, 0, 0, 0, 0, 0, 0, 0, 0, 0, 0, 0]
    );
    assert_eq!(rt; read.code.rows[8], [0; 16]);
    assert_eq!(rt; read.slots, [0, 1, 0, 1, 0, 0, 0, 0, 0, 0]);
    assert_eq!(rt; read.marks[7][31], 255);
    let plan = read.witnesses.ok_or("no witnesses")?.plans[1];
    assert_eq!(rt; plan.choice, [1, 0, 0, 1, 0, 0, 0, 0, 0, 0]);
    assert_eq!(rt; plan.coefs[0], [1, 0, 2, 3, 0, 0, 0, 0, 0, 0]);
    assert_eq!(rt; plan.coefs[1], [4, 0, 5, 6, 0, 0, 0, 0, 0, 0]);
    Ok(())
}

#[test]
fn what_is_out_of_range_is_not_read(rt: HostRuntime) -> Result<(), Fail> {
    for (said, tail, is_read) in [
        (SAID, [0].as_slice(), true),
        (SAID, WITNESSES.as_slice(), true),
        (SAID, [].as_slice(), false),
        (SAID, [0, 0].as_slice(), false),
        (SAID, [2].as_slice(), false),
        (SAID, [1].as_slice(), false),
        (SAID, with_two(1).as_slice(), false),
        (SAID, with_two(30).as_slice(), false),
        (SAID, with_two(4).as_slice(), true),
        (Said { kind: 0, ..SAID }, WITNESSES.as_slice(), false),
        (Said { kind: 2, ..SAID }, WITNESSES.as_slice(), false),
        (Said { kind: 255, ..SAID }, WITNESSES.as_slice(), false),
        (
            Said {
                generation: 0,
                ..SAID
            },
            [0].as_slice(),
            false,
        ),
        (
            Said {
                generation: u64::MAX,
                ..SAID
            },
            [0].as_slice(),
            false,
        ),
        (
            Said {
                len: 67_108_864,
                ..SAID
            },
            [0].as_slice(),
            true,
        ),
        (
            Said {
                len: 67_108_865,
                ..SAID
            },
            [0].as_slice(),
            false,
        ),
        (Said { slot: 2, ..SAID }, [0].as_slice(), false),
    ] {
        let payload = payload(rt.alloc(), &said, tail)?;
        assert_eq!(rt; Meta::read(4, payload.as_slice()).is_some(), is_read);
    }
    Ok(())
}

/// What the meta of a payload is written as.
#[tactic(auto, using(crate::proofs::MetasFit::is_meta))]
fn written_again(alloc: Global, width: u8, payload: &[u8]) -> Result<Option<Blob>, Memory>
    requires wide { 4 ≤ width }
    requires narrow { width ≤ 10 }
{
    match Meta::read(width, payload) {
        Some(meta) => {
            let blob = meta.write(alloc, width)?;
            Ok(Some(blob))
        }
        None => Ok(None),
    }
}

#[test]
fn payloads_are_written_as_they_were_read(rt: HostRuntime) -> Result<(), Fail> {
    let alloc = rt.alloc();
    let bare = payload(alloc, &SAID, &[0])?;
    let planned = payload(alloc, &SAID, &WITNESSES)?;
    for (payload, len) in [
        (b"NCM1\x00\x00\x00\x00\x00\x00\x00\x01\x02".as_slice(), 13),
        (bare.as_slice(), 314),
        (planned.as_slice(), 350),
    ] {
        let blob = written_again(alloc, 4, payload)?.ok_or("not read")?;
        assert_eq!(rt; blob.bytes(), payload);
        assert_eq!(rt; payload.len(), len);
    }
    for (flag, plan_bytes, len) in [(0, 0, 992), (1, 270, 1262)] {
        let payload = wide_payload(alloc, flag, plan_bytes)?;
        let blob = written_again(alloc, 10, payload.as_slice())?.ok_or("not read")?;
        assert_eq!(rt; blob.bytes(), payload.as_slice());
        assert_eq!(rt; payload.len(), len);
    }
    Ok(())
}

#[test]
fn a_deleted_file_has_a_generation_alone(rt: HostRuntime) {
    for (payload, generation) in [
        (
            b"NCM1\x00\x00\x00\x00\x00\x00\x00\x01\x02".as_slice(),
            Some(258),
        ),
        (
            b"NCM1\x00\x00\x00\x00\x00\x00\x00\x01\x02\x00".as_slice(),
            None,
        ),
        (b"NCM1\x00\x00\x00\x00\x00\x00\x00\x01".as_slice(), None),
        (b"NCM1\x02\x00\x00\x00\x00\x00\x00\x01\x02".as_slice(), None),
        (b"NCM1\x00\x00\x00\x00\x00\x00\x00\x00\x00".as_slice(), None),
    ] {
        assert_eq!(rt; generation_read(payload), generation);
    }
}

fn generation_read(payload: &[u8]) -> Option<u64> {
    match Meta::read(4, payload) {
        Some(meta) => Some(meta.generation()),
        None => None,
    }
}

#[test]
fn metas_are_compared(rt: HostRuntime) -> Result<(), Fail> {
    let alloc = rt.alloc();
    let gone = Meta::Gone { generation: 7 };
    let one = payload(alloc, &SAID, &WITNESSES)?;
    let other = payload(alloc, &Said { slot: 0, ..SAID }, &WITNESSES)?;
    let bare = payload(alloc, &SAID, &[0])?;
    let one = Meta::read(4, one.as_slice()).ok_or("not read")?;
    let other = Meta::read(4, other.as_slice()).ok_or("not read")?;
    let bare = Meta::read(4, bare.as_slice()).ok_or("not read")?;
    for (meta, is_same) in [(one, true), (other, false), (bare, false), (gone, false)] {
        assert_eq!(rt; same_meta(&one, &meta), is_same);
    }
    Ok(())
}
