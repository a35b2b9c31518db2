ghost use Rattle.std.specs.Prelude.{◌≡◌, ◌+◌, ◌*◌, ◌<◌, ◌≤◌, length, take, IfOk};
ghost use Rattle.std.specs.Borrow.{Bor};
ghost use Rattle.std.specs.List.{All, AllPairs};
ghost use Rattle.nc_gf256.specs.Width.{native_count};
ghost use Rattle.nc_native.specs.Native.{AllLong, chunk_size};
ghost use Rattle.nc_code.specs.Codes.{IsMds};
ghost use Rattle.nc_mix.specs.Mixing.{lent};
ghost use Rattle.nc_mix.specs.Decoding.{AreEnough, HoldsBytes, HoldsRows, Inverts, IsBefore, IsDecoded, chunks_in, solved};

use crate::gates::Gate;
use crate::pieces::Piece;
use crate::placing::place_blocks;
use crate::strips::strips_for;
use nc_bytes::told_bytes;
use nc_code::Code;
use nc_matrix::{Outcome, Square, invert};
use nc_name::{Blob, Memory};
use nc_native::chunk_size;
use std::alloc::Global;
use std::thread::Threads;

/// The first `len` bytes of the natives whose combinations the pieces are. There are `width - 2` pieces, of distinct clouds in
/// ascending order, and each chunk has the size of a chunk of a file of `len` bytes. Workers and gate change nothing in the
/// answer.
pub fn decode<R: Threads + Sync, G: Gate + Sync>(
    rt: &R,
    alloc: Global,
    pieces: &[Piece],
    code: &Code,
    len: u64,
    workers: u8,
    gate: &G,
) -> Result<Blob, Memory>
    requires enough { AreEnough code.now len pieces.now }
    requires some_worker { 1 ≤ workers }
    requires few_workers { workers ≤ 16 }
    ensures { IfOk result (IsDecoded code.now len pieces.now) }
{
    let file = decode_into(rt, alloc, Vec::new(alloc), pieces, code, len, workers, gate)?;
    Ok(file)
}

/// As `decode`, in room that was made before. What that holds counts for nothing, and where it isn't as long as the natives
/// together more is taken.
pub fn decode_into<R: Threads + Sync, G: Gate + Sync>(
    rt: &R,
    alloc: Global,
    room: Vec<u8>,
    pieces: &[Piece],
    code: &Code,
    len: u64,
    workers: u8,
    gate: &G,
) -> Result<Blob, Memory>
    requires enough { AreEnough code.now len pieces.now }
    requires some_worker { 1 ≤ workers }
    requires few_workers { workers ≤ 16 }
    ensures { IfOk result (IsDecoded code.now len pieces.now) }
{
    told_chunks(pieces);
    let size = chunk_size(len, code.width()) as usize;
    let inverse = inverse_of(pieces, code);
    let rows = first_rows(&inverse.cells, inverse.size as usize);
    decode_with(
        rt,
        alloc,
        room,
        pieces,
        rows,
        size,
        len as usize,
        workers,
        gate,
    )
}

/// Room for a file of so many bytes, as `decode_into` fills it: for all its natives.
pub fn room_for(alloc: Global, width: u8, len: u64) -> Result<Vec<u8>, Memory>
    requires wide { 4 ≤ width }
    requires narrow { width ≤ 10 }
    ensures { IfOk result (λ room. length room.items ≡ native_count width * chunk_size len width) }
{
    let count = usize::from(2 * (width - 2));
    let Some(total) = count.checked_mul(chunk_size(len, width) as usize) else {
        return Err(Memory);
    };
    resized(Vec::new(alloc), total)
}

/// Tells that what the pieces hold are bytes.
fn told_chunks(pieces: &[Piece])
    ensures { All HoldsBytes pieces.now }
{
    for piece in pieces {
        told_bytes(piece.zero.bytes());
        told_bytes(piece.one.bytes());
    }
}

/// The inverse of the square of the pieces' rows, which the code being MDS promises.
fn inverse_of(pieces: &[Piece], code: &Code) -> Square
    requires mds { IsMds code.now }
    requires count { length pieces.now + 2 ≡ code.now.width }
    requires ascending { AllPairs IsBefore pieces.now }
    requires in_width { All (λ x. x.cloud < code.now.width) pieces.now }
    ensures size { result.size ≡ native_count code.now.width }
    ensures inverse { Inverts code.now pieces.now result.cells }
{
    match invert(&square_of(pieces, code)) {
        Outcome::Inverse(inverse) => inverse,
        Outcome::Kernel(_) => unreachable!(),
    }
}

/// The first `count` rows.
pub fn first_rows(table: &[[u8; 16]], count: usize) -> &[[u8; 16]]
    requires { count ≤ length table.now }
    ensures count { length result.now ≡ count }
    ensures rows { result.now ≡ take count table.now }
{
    &table[..count]
}

/// The square of the pieces' rows, two for each piece in order.
pub fn square_of(pieces: &[Piece], code: &Code) -> Square
    requires count { length pieces.now + 2 ≡ code.now.width }
    requires in_width { All (λ x. x.cloud < code.now.width) pieces.now }
    ensures size { result.size ≡ native_count code.now.width }
    ensures rows { HoldsRows code.now pieces.now result.cells }
{
    let width = code.width();
    let mut cells = [[0; 16]; 16];
    for p in 0..pieces.len() {
        let cloud = pieces[p].cloud;
        cells[2 * p] = code.row(cloud, 0);
        cells[2 * p + 1] = code.row(cloud, 1);
    }
    Square {
        size: 2 * (width - 2),
        cells,
    }
}

/// The first `len` bytes of what the rows make of the pieces' chunks.
pub fn decode_with<R: Threads + Sync, G: Gate + Sync>(
    rt: &R,
    alloc: Global,
    room: Vec<u8>,
    pieces: &[Piece],
    rows: &[[u8; 16]],
    size: usize,
    len: usize,
    workers: u8,
    gate: &G,
) -> Result<Blob, Memory>
    requires count { length (chunks_in pieces.now) ≤ 16 }
    requires long { AllLong size (chunks_in pieces.now) }
    requires some_worker { 1 ≤ workers }
    ensures { IfOk result (λ file. file ≡ take len (solved size (chunks_in pieces.now) rows.now)) }
{
    let sources = lend_pieces(alloc, pieces)?;
    let Some(total) = rows.len().checked_mul(size) else {
        return Err(Memory);
    };
    let mut file = resized(room, total)?;
    let mut strips = strips_for(alloc, workers, size)?;
    place_blocks(
        rt,
        &mut file,
        &mut strips,
        &sources,
        rows,
        size,
        workers,
        gate,
    )?;
    file.truncate(len);
    Ok(Blob::from_vec(file))
}

/// The same room, so many bytes long.
fn resized(mut room: Vec<u8>, size: usize) -> Result<Vec<u8>, Memory>
    ensures { IfOk result (λ v. length v.items ≡ size) }
{
    if room.resize(size, 0).is_err() {
        return Err(Memory);
    }
    Ok(room)
}

/// The bytes of each chunk.
fn lend_pieces(alloc: Global, pieces: &[Piece]) -> Result<Vec<&[u8]>, Memory>
    ensures { IfOk result (λ v. lent v.items ≡ chunks_in pieces.now) }
{
    let mut list = Vec::new(alloc);
    for piece in pieces {
        if list.push(piece.zero.bytes()).is_err() || list.push(piece.one.bytes()).is_err() {
            return Err(Memory);
        }
    }
    Ok(list)
}
