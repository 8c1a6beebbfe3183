// A read: blocks until the room is full, then the key changed from what the last block has left, or from one block more.
ghost use Rattle.std.specs.Prelude.{◌≡◌, ◌-◌, ◌≤◌, length, take, ◌==◌};
ghost use Rattle.words.specs.Words.{add};
ghost use Rattle.std.proofs.lemmas.List.Edits.{sets};
ghost use Rattle.chacha.specs.Chacha.{chacha_block, serialize};
ghost use Rattle.ledger.specs.Sizes.{longest};
ghost use Rattle.ledger.specs.Choice.{pick};
ghost use Rattle.ledger.specs.Streams.{whole_blocks, used_up};
ghost use Rattle.keeper.specs.Generator.{counted, stream, generated};

use crate::key::onto_key;
use chacha::lay_block;
use ledger::sizes::GENERATOR_WORDS;

// The high word of the counter, where the low one has become `low`.
#[tactic(auto, unfolding(ledger::specs::Choice::pick))]
fn carried(low: u32, high: u32) -> u32
    ensures { result ≡ pick (low == 0) (add high 1) high }
{
    if low == 0 { high.wrapping_add(1) } else { high }
}

// The next block laid over a room from its start, and the counter of words 12 and 13 moved on by one.
#[tactic(auto, unfolding(keeper::specs::Generator::counted))]
fn next_block(g: &mut [u32; GENERATOR_WORDS], room: &mut [u8])
    ensures room_after { room.new ≡ sets room.old 0 (serialize (chacha_block g.old)) }
    ensures g_after { g.new ≡ counted g.old }
{
    lay_block(g, room);
    let low = g[12].wrapping_add(1);
    let high = carried(low, g[13]);
    g[12] = low;
    g[13] = high;
}

// A block's 64 bytes laid over a room from its start, as many as there is room for. Where they all fit, their number is a literal, and the
// compiler moves them without a test.
#[tactic(auto, using(crate::proofs::Laying::over_front, crate::proofs::Laying::over_all))]
fn lay_whole(out: &mut [u8], block: &[u8; 64])
    ensures { out.new ≡ sets out.old 0 block.now }
{
    if 64 <= out.len() {
        out[..64].copy_from_slice(block);
    } else {
        let n = out.len();
        out.copy_from_slice(&block[..n]);
    }
}

// Blocks until the room is full. All but the last go straight into it; the last goes by way of a room of its own, which keeps what is
// not handed out: the key is changed from there.
fn fill(g: &mut [u32; GENERATOR_WORDS], out: &mut [u8], last: &mut [u8; 64])
    requires { (1 ≤ length out.old) × (length out.old ≤ longest) }
    ensures out_after { out.new ≡ take (length out.old) (stream (whole_blocks (length out.old)) g.old).bytes }
    ensures g_after { g.new ≡ (stream (whole_blocks (length out.old)) g.old).generator }
    ensures last_after { last.new ≡ serialize (chacha_block (stream (whole_blocks (length out.old) - 1) g.old).generator) }
{
    let before_last = (out.len() - 1) / 64;
    for n in 0..before_last {
        next_block(g, &mut out[64 * n..]);
    }
    next_block(g, last);
    lay_whole(&mut out[64 * before_last..], last);
}

// Bytes used of the last block of a read, rounded up to 4. `decide` says the same of a length in a plan: the public half stands on no crate that has
// words of the generator.
fn used_up(len: usize) -> usize
    requires { (1 ≤ len) × (len ≤ longest) }
    ensures value { result ≡ used_up len }
    ensures upper_bound { result ≤ 64 }
{
    (len - 64 * (len.div_ceil(64) - 1)).next_multiple_of(4)
}

// Fills the room, of at most 4,096 bytes, and changes the key.
pub fn generate(g: &mut [u32; GENERATOR_WORDS], out: &mut [u8])
    requires { length out.old ≤ longest }
    ensures out_after { out.new ≡ (generated (length out.old) g.old).bytes }
    ensures g_after { g.new ≡ (generated (length out.old) g.old).generator }
{
    let len = out.len();
    if len == 0 {
        return;
    }
    let mut last = [0u8; 64];
    fill(g, out, &mut last);
    let used = used_up(len);
    if 64 < used + 32 {
        next_block(g, &mut last);
        onto_key(g, &last[..32]);
    } else {
        onto_key(g, &last[used..used + 32]);
    }
}
