ghost use Rattle.std.specs.Prelude.{◌≡◌};
ghost use Rattle.mutations.specs.Words.{words_of};

use rand_chacha::ChaCha20Rng;
use rand_core::SeedableRng;
use rand_core::utils::NextWord;

/// The four random words of a turn of a seed: those at the places `4 * turn` to `4 * turn + 3` of the key stream of
/// ChaCha20 (RFC 8439) as 32-bit little-endian words, where the key is the seed's eight bytes, low bytes first, and
/// 24 zero bytes, the nonce is zero and the blocks count from 0. It takes no memory.
#[tactic(auto, unfolding(crate::specs::Words::words_of))]
pub fn words(seed: u64, turn: u32) -> [u32; 4]
    ensures { result ≡ words_of seed turn }
{
    let mut key = [0; 32];
    key[..8].copy_from_slice(&seed.to_le_bytes());
    let mut stream = ChaCha20Rng::from_seed(key);
    stream.set_word_pos(4 * turn as u128);
    let first = stream.next_word();
    let second = stream.next_word();
    let third = stream.next_word();
    let fourth = stream.next_word();
    [first, second, third, fourth]
}
