// What a plan costs, the ChaCha20 blocks and the SHA-1 compressions that carrying it out runs, and the answer that tells it.
#![tactic(auto, using(std::proofs::lemmas::Bool::Decides::nat_tests), unfolding(ledger::specs::Choice::pick, ledger::specs::Places::costs))]

ghost use Rattle.std.specs.Prelude.{◌≡◌, ◌≤◌, ◌*◌, ◌+◌};
ghost use Rattle.ledger.specs.Places.{blocks_of};
ghost use Rattle.ledger.specs.Streams.{whole_blocks, used_up, stream_blocks};
ghost use Rattle.ledger.specs.Plans.{Small, compressions_run, answer_of};

use ledger::{Answer, Plan};

// Extraction blocks for so many bytes: ten to a block, the last one shortened.
fn blocks_of(k: u32) -> u64
    ensures value { result ≡ blocks_of k }
    ensures held { 10 * result ≤ k + 9 }
{
    u64::from(k).div_ceil(10)
}

// The compressions: 8 for a block of the input pool, 2 for one of the blocking pool.
pub fn compressions_run(p: Plan) -> u64
    ensures { result ≡ compressions_run p }
{
    8 * blocks_of(p.reseed) + 8 * blocks_of(p.transfer) + 2 * blocks_of(p.deliver)
}

// Generator blocks until so many bytes are met.
fn whole_blocks(len: u32) -> u64
    ensures value { result ≡ whole_blocks len }
    ensures held { 64 * result ≤ len + 63 }
{
    u64::from(len).div_ceil(64)
}

// Bytes used of the last block, rounded up to 4; of no block, none. `generator` has its own, of a read's room: the two halves share rules, not code.
fn used_up(len: u32) -> u64
    ensures value { result ≡ used_up len }
    ensures upper_bound { result ≤ 64 }
{
    if len == 0 {
        return 0;
    }
    (u64::from(len) - 64 * (whole_blocks(len) - 1)).next_multiple_of(4)
}

// The blocks of a generator read: a further one where the last has no 32 bytes left for the key.
pub fn stream_blocks(len: u32) -> u64
    ensures { result ≡ stream_blocks len }
{
    if used_up(len) + 32 > 64 {
        whole_blocks(len) + 1
    } else {
        whole_blocks(len)
    }
}

// The plan's number, what it hands out, what it costs and what its credit adds.
pub fn answer_of(p: Plan) -> Answer
    requires { Small p }
    ensures { result ≡ answer_of p }
{
    Answer {
        number: p.number,
        delivered: p.deliver + p.stream,
        blocks: stream_blocks(p.stream) as u32,
        compressions: compressions_run(p) as u32,
        added: p.added,
    }
}
