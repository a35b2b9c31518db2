ghost use Rattle.std.specs.Prelude.{◌≡◌, ◌≤◌, length};
ghost use Rattle.sha2.specs.Sha256.{sha256};
ghost use Rattle.nc_bytes.specs.Bytes.{AreBytes, AreZeroPast};
ghost use Rattle.nc_code.specs.Parts.{IsTable};
ghost use Rattle.nc_write.specs.Marks.{AreDigests, AreMarks};

use nc_name::Blob;
use sha2::{Digest, Sha256};
use std::thread;
use std::thread::Threads;

/// The digest of each chunk's payload, and zeros past the last. Up to so many chunks are hashed at the same time.
pub fn marks_of<R: Threads + Sync>(rt: &R, chunks: &[Blob], workers: u8) -> [[u8; 32]; 20]
    requires few { length chunks.now ≤ 20 }
    requires some_workers { 1 ≤ workers }
    requires few_workers { workers ≤ 16 }
    ensures marks { AreMarks chunks.now result }
    ensures shape { IsTable 20 32 result }
    ensures past { AreZeroPast (length chunks.now) result }
{
    let mut marks = [[0; 32]; 20];
    mark_all(rt, &mut marks[..chunks.len()], chunks, workers);
    marks
}

/// Writes the digest of each chunk's payload into its place.
fn mark_all<R: Threads + Sync>(rt: &R, marks: &mut [[u8; 32]], chunks: &[Blob], workers: u8)
    requires count { length marks.old ≡ length chunks.now }
    requires some_workers { 1 ≤ workers }
    ensures { AreDigests chunks.now marks.new }
{
    thread::for_each_mut(
        rt,
        marks,
        usize::from(workers),
        &|i, mark| *mark = mark_of(&chunks[i]),
    );
}

/// The SHA-256 of a chunk's payload.
pub fn mark_of(chunk: &Blob) -> [u8; 32]
    ensures value { result ≡ sha256 chunk.now }
    ensures bytes { AreBytes result }
{
    let mark = Sha256::digest(chunk.bytes());
    for byte in &mark {
        let _told = *byte;
    }
    mark
}
