//! Mixing by several workers.

use crate::repair_tests::{made_anew, mixed_plan};
use crate::tests::{comes_back, file_of};
use crate::{Gate, Open, encode};
use nc_code::striped;
use nc_native::{chunk_size, cut};
use std::sync::atomic::{AtomicU64, Ordering};
use std::test::Fail;

/// A gate in which each part waits for a second one, for some time.
#[derive(Drop)]
struct Meeting {
    entered: AtomicU64,
    given_up: AtomicU64,
}

impl Meeting {
    fn new() -> Meeting {
        Meeting {
            entered: AtomicU64::new(0),
            given_up: AtomicU64::new(0),
        }
    }

    /// Whether two parts were here at once each time.
    fn took_place(&self) -> bool {
        self.entered.load(Ordering::SeqCst) >= 2 && self.given_up.load(Ordering::SeqCst) == 0
    }
}

impl Gate for Meeting {
    fn enter(&self) {
        self.entered.fetch_add(1, Ordering::SeqCst);
        for _ in 0..100_000_000u32 {
            if self.entered.load(Ordering::SeqCst) >= 2 {
                return;
            }
        }
        self.given_up.fetch_add(1, Ordering::SeqCst);
    }
}

#[test]
fn two_workers_meet_in_the_gate(rt: HostRuntime) -> Result<(), Fail> {
    let file = file_of(rt.alloc(), 1_000_003)?;
    let code = striped(4);
    let natives = cut(rt.alloc(), &file, 4)?;
    let encoding = Meeting::new();
    let chunks = encode(&rt, rt.alloc(), &natives, &code, 2, &encoding)?;
    assert!(rt; encoding.took_place());
    let decoding = Meeting::new();
    let back = comes_back(
        &rt,
        rt.alloc(),
        chunks.items(),
        &code,
        &file,
        0,
        2,
        2,
        &decoding,
    )?;
    assert!(rt; back);
    assert!(rt; decoding.took_place());
    let repairing = Meeting::new();
    let size = chunk_size(file.len() as u64, 4) as usize;
    let plan = mixed_plan();
    made_anew(
        &rt,
        rt.alloc(),
        chunks.items(),
        &plan,
        1,
        4,
        size,
        2,
        &repairing,
    )?;
    assert!(rt; repairing.took_place());
    Ok(())
}

/// Two bytes are two parts, which two workers make.
#[test]
fn two_workers_meet_over_two_bytes(rt: HostRuntime) -> Result<(), Fail> {
    let natives = cut(rt.alloc(), b"abcdefgh", 4)?;
    let encoding = Meeting::new();
    let chunks = encode(&rt, rt.alloc(), &natives, &striped(4), 2, &encoding)?;
    assert!(rt; encoding.took_place());
    assert_eq!(rt; chunks.items()[0].bytes(), b"ab".as_slice());
    Ok(())
}

#[test]
fn any_number_of_workers_makes_the_same(rt: HostRuntime) -> Result<(), Fail> {
    let file = file_of(rt.alloc(), 1_000_003)?;
    let code = striped(10);
    let natives = cut(rt.alloc(), &file, 10)?;
    let alone = encode(&rt, rt.alloc(), &natives, &code, 1, &Open)?;
    assert_eq!(rt; alone.items().len(), 20);
    for workers in [1u8, 3, 16] {
        let chunks = encode(&rt, rt.alloc(), &natives, &code, workers, &Open)?;
        for (chunk, one) in chunks.items().iter().zip(alone.items()) {
            assert_eq!(rt; chunk.bytes().len(), 62_501);
            assert!(rt; chunk.bytes() == one.bytes());
        }
        let back = comes_back(
            &rt,
            rt.alloc(),
            chunks.items(),
            &code,
            &file,
            0,
            1,
            workers,
            &Open,
        )?;
        assert!(rt; back);
    }
    Ok(())
}
