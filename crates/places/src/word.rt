// The word of a key.
ghost use Rattle.std.specs.Prelude.{◌≡◌, [], ◌∷◌};
ghost use Rattle.places.specs.Words.{fnv, fnv_step};

use keys::Kind;

const OFFSET: u32 = 0x811c_9dc5;

const PRIME: u32 = 0x0100_0193;

fn step(word: u32, byte: u8) -> u32
    ensures { result ≡ fnv_step word byte }
{
    (word ^ u32::from(byte)).wrapping_mul(PRIME)
}

// 32-bit FNV-1a of the key's bytes, begun from a seed.
#[tactic(auto, using(crate::proofs::Words::fnv_more, crate::proofs::Words::fnv_all))]
pub fn fnv1a<K: Kind>(seed: u32, key: &K) -> u32
    ensures { result ≡ fnv seed (K.Kind.bytes key.now) }
{
    let mut word = OFFSET ^ seed;
    // `(0..key.len()).fold(..)` was tried, and its proof did not close
    for i in 0..key.len() {
        word = step(word, key.byte(i));
    }
    word
}

// The same of a single byte, with seed 0.
pub(crate) fn fnv1a_byte(byte: u8) -> u32
    ensures { result ≡ fnv 0 (byte ∷ []) }
{
    step(OFFSET, byte)
}
