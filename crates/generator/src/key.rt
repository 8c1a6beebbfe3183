// Bytes xored onto the key, little endian; a last word may be short.
ghost use Rattle.std.specs.Prelude.{◌≡◌, ◌≤◌, length};
ghost use Rattle.words.specs.Bytes.{le_number};
ghost use Rattle.keeper.specs.Generator.{onto_key};

use ledger::sizes::GENERATOR_WORDS;
use words::u32_of_bytes;

// The word of four bytes, or of fewer; one that is missing counts as 0.
#[tactic(auto, using(crate::proofs::ShortWords::four_bytes))]
fn word_of(bytes: &[u8]) -> u32
    requires { length bytes.now ≤ 4 }
    ensures { result ≡ le_number bytes.now }
{
    let byte = |k: usize| bytes.get(k).copied().unwrap_or(0);
    u32_of_bytes([byte(0), byte(1), byte(2), byte(3)])
}

// At most 32 bytes go onto the first bytes of the key.
pub fn onto_key(g: &mut [u32; GENERATOR_WORDS], bytes: &[u8])
    requires { length bytes.now ≤ 32 }
    ensures { g.new ≡ onto_key bytes.now g.old }
{
    for (i, four) in bytes.chunks(4).enumerate() {
        g[4 + i] ^= word_of(four);
    }
}
