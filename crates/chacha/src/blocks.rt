// The block of a state, and its bytes.
ghost use Rattle.std.specs.Prelude.{◌≡◌, length};
ghost use Rattle.std.proofs.lemmas.List.Edits.{sets};
ghost use Rattle.words.specs.Words.{add_words};
ghost use Rattle.chacha.specs.Chacha.{rounds, chacha_block, serialize};

use crate::rounds::inner_block;
use words::{add_words, put_u32};

// Twenty rounds: ten double ones.
fn rounds(s: [u32; 16]) -> [u32; 16]
    ensures { result ≡ rounds 10 s }
{
    let mut t = s;
    for _ in 0..10u32 {
        // by way of `u`: the prover does not follow an array from a call straight into a variable that stands already
        let u = inner_block(t);
        t = u;
    }
    t
}

// The block of the state s. The counter, word 12, is the caller's to move.
#[tactic(auto, unfolding(crate::specs::Chacha::chacha_block))]
pub fn block(s: [u32; 16]) -> [u32; 16]
    ensures { result ≡ chacha_block s }
{
    add_words(rounds(s), s)
}

// The sums of sixteen words and sixteen others laid over a room as bytes, from its start. Each is laid as soon as it is made, so that no
// block stands on the stack, and the start state is read again where it lies. By index, since it goes over three lists.
fn lay_sums(t: [u32; 16], s: &[u32; 16], out: &mut [u8])
    ensures { out.new ≡ sets out.old 0 (serialize (add_words t s.now)) }
{
    for k in 0..16 {
        put_u32(out, k * 4, t[k].wrapping_add(s[k]));
    }
}

// The 64 bytes of the block of the state s, laid over a room from its start. A shorter room takes as many as it has; a longer one keeps
// the rest. Both ways lead to the same function: of a part whose length is a literal, the compiler drops every test against its end.
// That a state has sixteen words is in its type; it is said here too, for callers who prove something of the bytes' number.
#[tactic(auto, unfolding(crate::specs::Chacha::chacha_block))]
pub fn lay_block(s: &[u32; 16], out: &mut [u8])
    ensures out_after { out.new ≡ sets out.old 0 (serialize (chacha_block s.now)) }
    ensures s_len { length s.now ≡ 16 }
{
    let t = rounds(*s);
    if 64 <= out.len() {
        lay_sums(t, s, &mut out[..64]);
    } else {
        lay_sums(t, s, out);
    }
}
