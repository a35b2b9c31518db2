ghost use Rattle.std.specs.Prelude.{◌≡◌, ◌^◌, ◌<◌, ◌≤◌, length};
ghost use Rattle.nc_search.specs.Stream.{draw_key, stream_part, word_count};

use nc_name::Name;
use rand_chacha::ChaCha20Rng;
use rand_core::{Rng, SeedableRng};
use sha2::{Digest, Sha256};

/// The key that the candidates for a generation of a file are drawn with: the SHA-256 (FIPS 180-4) of the seed, the name's
/// bytes, and the generation that is to be written in eight bytes, the high one first.
pub fn draw_key(seed: &[u8; 32], name: &Name, generation: u64) -> [u8; 32]
    ensures { result ≡ draw_key seed.now name.now generation }
{
    let mut hasher = Sha256::new();
    hasher.update(seed);
    hasher.update(name.bytes());
    hasher.update(nc_bytes::u64_bytes(generation));
    hasher.finalize()
}

/// Writes the bytes of the stream of a key, from a word on.
pub fn fill(key: &[u8; 32], word: u64, out: &mut [u8])
    requires early { word < 2 ^ 40 }
    requires short { length out.old ≤ 65536 }
    ensures { out.new ≡ stream_part key.now word (length out.old) }
{
    let mut rng = ChaCha20Rng::from_seed(*key);
    rng.set_word_pos(u128::from(word));
    rng.fill_bytes(out);
}

/// How many words `n` bytes take.
pub fn word_count(n: usize) -> usize
    requires { n ≤ 65536 }
    ensures { result ≡ word_count n }
{
    n.div_ceil(4)
}
