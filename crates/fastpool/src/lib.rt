// The interrupt fast pool in code: four words into which every interrupt's numbers go before anything is spilled.
//
// The contract is one equation with the definition `stirred` of `keeper`, for any words and any numbers; sums wrap.
#![tactic(auto)]

ghost use Rattle.std.specs.Prelude.{◌≡◌, ◌<◌};
ghost use Rattle.keeper.specs.FastPool.{fast_step, fast_round, stirred};

use ledger::sizes::FAST_WORDS;
use words::{high_half, low_half, rotate_left};

// a += b, c += d, b and d rotated left by r and s, d ^= a, b ^= c.
fn fast_step(f: [u32; FAST_WORDS], r: u32, s: u32) -> [u32; FAST_WORDS]
    requires { (r < 32) × (s < 32) }
    ensures { result ≡ fast_step r s f }
{
    let a = f[0].wrapping_add(f[1]);
    let c = f[2].wrapping_add(f[3]);
    [a, rotate_left(f[1], r) ^ c, c, rotate_left(f[3], s) ^ a]
}

// The two steps.
fn fast_round(f: [u32; FAST_WORDS]) -> [u32; FAST_WORDS]
    ensures { result ≡ fast_round f }
{
    let g = fast_step(f, 6, 27);
    fast_step(g, 16, 14)
}

// An interrupt's numbers go in, and the two steps are done twice over.
#[tactic(auto, unfolding(keeper::specs::FastPool::stirred))]
pub fn stir(f: &mut [u32; FAST_WORDS], at: u32, number: u32, stamp: u64, address: u64)
    ensures { f.new ≡ stirred at number stamp address f.old }
{
    let x = [
        f[0] ^ (low_half(stamp) ^ number),
        f[1] ^ (at ^ high_half(stamp)),
        f[2] ^ low_half(address),
        f[3] ^ high_half(address),
    ];
    *f = fast_round(fast_round(x));
}
