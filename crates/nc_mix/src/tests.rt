ghost use Rattle.std.specs.Prelude.{◌≡◌, ◌+◌, ◌*◌, ◌<◌, ◌≤◌, length, IfOk};
ghost use Rattle.std.specs.List.{All};
ghost use Rattle.nc_native.specs.Native.{chunk_size};
ghost use Rattle.nc_mix.specs.Decoding.{IsLong};

use crate::decoding::{decode_with, first_rows, square_of};
use crate::{Gate, Open, Piece, encode, encode_file};
use nc_code::{Code, striped};
use nc_matrix::{Outcome, invert};
use nc_name::{Blob, Memory};
use nc_native::{chunk_size, cut};
use std::alloc::Global;
use std::test::Fail;
use std::thread::Threads;

trait Store {
    fn keep(&mut self, chunk: &[u8]);
}

#[derive(Drop)]
struct Kept {
    bytes: Vec<u8>,
}

impl Store for Kept {
    fn keep(&mut self, chunk: &[u8]) {
        let _ = self.bytes.extend_from_slice(chunk);
    }
}

/// A caller that is generic over where the chunks go.
fn keep_all<S: Store, R: Threads + Sync>(
    rt: &R,
    alloc: Global,
    store: &mut S,
    text: &[u8],
    code: &Code,
) -> Result<(), Memory> {
    let natives = cut(alloc, text, code.width())?;
    let chunks = encode(rt, alloc, &natives, code, 1, &Open)?;
    for chunk in chunks.items() {
        store.keep(chunk.bytes());
    }
    Ok(())
}

#[test]
fn striped_chunks_of_eight_bytes(rt: HostRuntime) -> Result<(), Fail> {
    let mut store = Kept {
        bytes: Vec::new(rt.alloc()),
    };
    keep_all(&rt, rt.alloc(), &mut store, b"abcdefgh", &striped(4))?;
    let wanted = [
        0x61, 0x62, 0x63, 0x64, 0x65, 0x66, 0x67, 0x68, 0x04, 0x04, 0x04, 0x0C, 0xAB, 0xAE, 0xAD,
        0xB4,
    ];
    assert_eq!(rt; store.bytes.as_slice(), wanted.as_slice());
    Ok(())
}

#[test]
fn one_byte_at_width_ten(rt: HostRuntime) -> Result<(), Fail> {
    let code = striped(10);
    let natives = cut(rt.alloc(), b"Z", code.width())?;
    let chunks = encode(&rt, rt.alloc(), &natives, &code, 16, &Open)?;
    assert_eq!(rt; chunks.items().len(), 20);
    assert_eq!(rt; chunks.items()[0].bytes(), [0x5A].as_slice());
    assert_eq!(rt; chunks.items()[1].bytes(), [0x00].as_slice());
    assert_eq!(rt; chunks.items()[18].bytes(), [0x5A].as_slice());
    Ok(())
}

/// The piece of a cloud, whose chunks have `size` bytes.
fn piece(alloc: Global, cloud: u8, zero: &[u8], one: &[u8], size: usize) -> Result<Piece, Fail>
    ensures cloud { IfOk result (λ x. x.cloud ≡ cloud) }
    ensures long { IfOk result (IsLong size) }
{
    if zero.len() != size {
        return Err(Fail::from("row 0 has another size"));
    }
    if one.len() != size {
        return Err(Fail::from("row 1 has another size"));
    }
    let zero = Blob::from_slice(alloc, zero)?;
    let one = Blob::from_slice(alloc, one)?;
    Ok(Piece { cloud, zero, one })
}

/// The pieces of all clouds but `a` and `b`.
fn pieces_without(
    alloc: Global,
    chunks: &[Blob],
    width: u8,
    size: usize,
    a: u8,
    b: u8,
) -> Result<Vec<Piece>, Fail>
    requires { length chunks.now ≡ 2 * width }
    ensures in_width { IfOk result (λ v. All (λ x. x.cloud < width) v.items) }
    ensures long { IfOk result (λ v. All (IsLong size) v.items) }
{
    let mut pieces = Vec::new(alloc);
    for cloud in 0..width {
        if cloud != a {
            if cloud != b {
                let zero = chunks[2 * cloud as usize].bytes();
                let one = chunks[2 * cloud as usize + 1].bytes();
                pieces.push(piece(alloc, cloud, zero, one, size)?)?;
            }
        }
    }
    Ok(pieces)
}

/// What the pieces decode to, where their rows can be inverted, in room that holds other bytes. (`decode` itself asks that the code be
/// MDS, which is proved in another crate.)
fn decoded<R: Threads + Sync, G: Gate + Sync>(
    rt: &R,
    alloc: Global,
    pieces: &[Piece],
    code: &Code,
    len: u64,
    workers: u8,
    gate: &G,
) -> Result<Option<Blob>, Memory>
    requires some_worker { 1 ≤ workers }
    requires count { length pieces.now + 2 ≡ code.now.width }
    requires in_width { All (λ x. x.cloud < code.now.width) pieces.now }
    requires long { All (IsLong (chunk_size len code.now.width)) pieces.now }
{
    let size = chunk_size(len, code.width()) as usize;
    match invert(&square_of(pieces, code)) {
        Outcome::Inverse(inverse) => {
            let rows = first_rows(&inverse.cells, inverse.size as usize);
            let room = file_of(alloc, 1000)?;
            let file = decode_with(
                rt,
                alloc,
                room,
                pieces,
                rows,
                size,
                len as usize,
                workers,
                gate,
            )?;
            Ok(Some(file))
        }
        Outcome::Kernel(_) => Ok(None),
    }
}

/// Whether the file comes back without the clouds `a` and `b`.
pub fn comes_back<R: Threads + Sync, G: Gate + Sync>(
    rt: &R,
    alloc: Global,
    chunks: &[Blob],
    code: &Code,
    file: &[u8],
    a: u8,
    b: u8,
    workers: u8,
    gate: &G,
) -> Result<bool, Fail>
    requires count { length chunks.now ≡ 2 * code.now.width }
    requires some_worker { 1 ≤ workers }
{
    let width = code.width();
    let len = file.len() as u64;
    let size = chunk_size(len, width) as usize;
    let pieces = pieces_without(alloc, chunks, width, size, a, b)?;
    if pieces.len() + 2 != width as usize {
        return Err(Fail::from("not all but two clouds"));
    }
    match decoded(rt, alloc, &pieces, code, len, workers, gate)? {
        Some(found) => Ok(found.bytes() == file),
        None => Ok(false),
    }
}

/// The bytes 0 to 250 again and again.
pub fn file_of(alloc: Global, len: u32) -> Result<Vec<u8>, Memory> {
    let mut file = Vec::new(alloc);
    for i in 0..len {
        file.push((i % 251) as u8)?;
    }
    Ok(file)
}

/// How many pairs of clouds may be lost of a file's striped chunks.
fn pairs_to_lose<R: Threads + Sync>(rt: &R, alloc: Global, width: u8, len: u32) -> Result<u8, Fail>
    requires wide { 4 ≤ width }
    requires narrow { width ≤ 10 }
{
    let file = file_of(alloc, len)?;
    let code = striped(width);
    let natives = cut(alloc, &file, width)?;
    let chunks = encode(rt, alloc, &natives, &code, 1, &Open)?;
    let mut count: u8 = 0;
    for b in 1..width {
        for a in 0..b {
            if comes_back(rt, alloc, chunks.items(), &code, &file, a, b, 1, &Open)? {
                count = count.saturating_add(1);
            }
        }
    }
    Ok(count)
}

#[test]
fn each_pair_of_clouds_may_be_lost(rt: HostRuntime) -> Result<(), Fail> {
    for len in [0u32, 1, 8, 100_003] {
        assert_eq!(rt; pairs_to_lose(&rt, rt.alloc(), 4, len)?, 6, "{len} bytes");
        assert_eq!(rt; pairs_to_lose(&rt, rt.alloc(), 7, len)?, 21, "{len} bytes");
        assert_eq!(rt; pairs_to_lose(&rt, rt.alloc(), 10, len)?, 45, "{len} bytes");
    }
    Ok(())
}

/// Whether a file of so many bytes has the chunks of its natives.
fn encodes_as_it_is_cut<R: Threads + Sync>(
    rt: &R,
    alloc: Global,
    width: u8,
    len: u32,
) -> Result<bool, Fail>
    requires wide { 4 ≤ width }
    requires narrow { width ≤ 10 }
{
    let file = file_of(alloc, len)?;
    let code = striped(width);
    let natives = cut(alloc, &file, width)?;
    let wanted = encode(rt, alloc, &natives, &code, 1, &Open)?;
    let chunks = encode_file(rt, alloc, &file, &code, 2, &Open)?;
    if chunks.items().len() != wanted.items().len() {
        return Ok(false);
    }
    for (chunk, want) in chunks.items().iter().zip(wanted.items()) {
        if chunk.bytes() != want.bytes() {
            return Ok(false);
        }
    }
    Ok(true)
}

#[test]
fn a_file_has_the_chunks_of_its_natives(rt: HostRuntime) -> Result<(), Fail> {
    for len in [0u32, 1, 8, 100_003] {
        assert!(rt;
            encodes_as_it_is_cut(&rt, rt.alloc(), 4, len)?,
            "{len} bytes"
        );
        assert!(rt;
            encodes_as_it_is_cut(&rt, rt.alloc(), 10, len)?,
            "{len} bytes"
        );
    }
    Ok(())
}
