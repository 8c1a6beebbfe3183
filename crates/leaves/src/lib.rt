// The two ciphers as C sees them, one block a call: for the measurements of bench/ and for comparison with other people's
// implementations. Nothing of the keeper stands on this crate.
#![tactic(auto)]

ghost use Rattle.std.specs.Prelude.{◌≡◌};
ghost use Rattle.std.proofs.lemmas.List.Edits.{sets};
ghost use Rattle.chacha.specs.Chacha.{chacha_block, serialize};
ghost use Rattle.secure_hash.specs.Sha1.{compressed};

// The 64 bytes of the block of a state, laid over a room from its start.
#[unsafe(no_mangle)]
pub extern "C" fn leaf_chacha(state: &[u32; 16], out: &mut [u8])
    ensures { out.new ≡ sets out.old 0 (serialize (chacha_block state.now)) }
{
    chacha::lay_block(state, out);
}

// The hash value after one more block.
#[unsafe(no_mangle)]
pub extern "C" fn leaf_sha1(hash: &mut [u32; 5], message: &[u32; 16])
    ensures { hash.new ≡ compressed hash.old message.now }
{
    *hash = secure_hash::compress(*hash, *message);
}
