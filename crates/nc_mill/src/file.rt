//! The file of a mill.
ghost use Rattle.std.specs.Prelude.{◌≡◌, ◌≤◌, ◌^◌, IfOk, length};
ghost use Rattle.nc_search.specs.Stream.{stream_part};
ghost use Rattle.nc_mill.specs.Mills.{mill_file, mill_key};

use nc_name::{Blob, Memory};
use rand_chacha::ChaCha20Rng;
use rand_core::{Rng, SeedableRng};
use sha2::{Digest, Sha256};
use std::alloc::Global;

/// The file of a mill of this number: the first 8,388,608 bytes of the stream of its key.
pub(crate) fn mill_file(alloc: Global, number: u64) -> Result<Blob, Memory>
    ensures { IfOk result (λ file. file ≡ mill_file number) }
{
    stream_of(alloc, &mill_key(number), 8_388_608)
}

/// The key of a mill's file: the SHA-256 (FIPS 180-4) of the text `mill` and the number in eight
/// bytes, the high one first.
pub(crate) fn mill_key(number: u64) -> [u8; 32]
    ensures { result ≡ mill_key number }
{
    let mut hasher = Sha256::new();
    hasher.update(b"mill");
    hasher.update(nc_bytes::u64_bytes(number));
    hasher.finalize()
}

/// So many bytes of the stream of a key, from its start on.
pub(crate) fn stream_of(alloc: Global, key: &[u8; 32], len: usize) -> Result<Blob, Memory>
    requires { len ≤ 2 ^ 26 }
    ensures { IfOk result (λ stream. stream ≡ stream_part key.now 0 len) }
{
    let mut bytes = Vec::with_capacity(alloc, len)?;
    bytes.resize(len, 0)?;
    fill(key, bytes.as_mut_slice());
    Ok(Blob::from_vec(bytes))
}

/// Writes the bytes of the stream of a key, from its start on.
fn fill(key: &[u8; 32], out: &mut [u8])
    requires { length out.old ≤ 2 ^ 26 }
    ensures { out.new ≡ stream_part key.now 0 (length out.old) }
{
    let mut rng = ChaCha20Rng::from_seed(*key);
    rng.fill_bytes(out);
}
