// Bytes that go from one part of the keeper to another: a call's bytes into the input pool, from the input pool onto the key or into the
// blocking pool, and from the blocking pool into the caller's room. How many go is the plan's to say; nothing is decided here.
//
// Pools, generator and room are lent and changed in place; what is passed on stands for a moment in a room of 32 or 128 bytes.
#![tactic(auto)]

ghost use Rattle.std.specs.Prelude.{◌≡◌, ◌++◌, ◌≤◌, length, drop};
ghost use Rattle.words.specs.Bytes.{words_bytes};
ghost use Rattle.pool.specs.Mixing.{mix};
ghost use Rattle.pool.specs.Extracting.{extract};
ghost use Rattle.mixer.specs.Pools.{pool_of, shape};
ghost use Rattle.keeper.specs.Generator.{onto_key};
ghost use Rattle.keeper.specs.Calls.{event_bytes};

use generator::onto_key;
use ledger::sizes::GENERATOR_WORDS;
use mixer::Pool;
use words::{high_half, low_half};

// A call's bytes go into a pool.
pub fn feed<const N: usize>(pool: &mut Pool<N>, bytes: &[u8])
    ensures same_words { pool.new.words.ghost_name ≡ pool.old.words.ghost_name }
    ensures pool_after { pool_of pool.new ≡ mix (shape pool.old) (pool_of pool.old) bytes.now }
{
    pool.mix(&bytes[..]);
}

// An event's stamp, clock and value go into a pool.
pub fn feed_event<const N: usize>(pool: &mut Pool<N>, stamp: u64, at: u32, value: u32)
    ensures same_words { pool.new.words.ghost_name ≡ pool.old.words.ghost_name }
    ensures pool_after { pool_of pool.new ≡ mix (shape pool.old) (pool_of pool.old) (event_bytes stamp at value) }
{
    pool.mix_words(&[low_half(stamp), high_half(stamp), at, value]);
}

// The fast pool's words go into a pool.
pub fn spill<const N: usize>(pool: &mut Pool<N>, f: &[u32])
    ensures same_words { pool.new.words.ghost_name ≡ pool.old.words.ghost_name }
    ensures pool_after { pool_of pool.new ≡ mix (shape pool.old) (pool_of pool.old) (words_bytes f.now) }
{
    pool.mix_words(&f[..]);
}

// A reseed of so many bytes; of none, nothing changes.
pub fn reseed<const N: usize>(pool: &mut Pool<N>, g: &mut [u32; GENERATOR_WORDS], t: u32)
    requires { t ≤ 32 }
    ensures same_words { pool.new.words.ghost_name ≡ pool.old.words.ghost_name }
    ensures pool_after { pool_of pool.new ≡ (extract (shape pool.old) t (pool_of pool.old)).pool }
    ensures g_after { g.new ≡ onto_key (extract (shape pool.old) t (pool_of pool.old)).bytes g.old }
{
    if t == 0 {
        return;
    }
    let n = t as usize;
    let mut room = [0u8; 32];
    pool.extract(&mut room[..n]);
    onto_key(g, &room[..n]);
}

// A transfer of so many bytes from the input pool into the blocking pool.
pub fn transfer<const N: usize, const M: usize>(from: &mut Pool<N>, into: &mut Pool<M>, t: u32)
    requires { t ≤ 128 }
    ensures from_words { from.new.words.ghost_name ≡ from.old.words.ghost_name }
    ensures from_after { pool_of from.new ≡ (extract (shape from.old) t (pool_of from.old)).pool }
    ensures into_words { into.new.words.ghost_name ≡ into.old.words.ghost_name }
    ensures into_after { pool_of into.new ≡ mix (shape into.old) (pool_of into.old) (extract (shape from.old) t (pool_of from.old)).bytes }
{
    let n = t as usize;
    let mut room = [0u8; 128];
    from.extract(&mut room[..n]);
    into.mix(&room[..n]);
}

// So many bytes taken from a pool are laid into the front of the room; what stands past them stays.
pub fn deliver<const N: usize>(pool: &mut Pool<N>, out: &mut [u8], d: u32)
    requires { d ≤ length out.old }
    ensures same_words { pool.new.words.ghost_name ≡ pool.old.words.ghost_name }
    ensures pool_after { pool_of pool.new ≡ (extract (shape pool.old) d (pool_of pool.old)).pool }
    ensures out_after { out.new ≡ (extract (shape pool.old) d (pool_of pool.old)).bytes ++ drop d out.old }
{
    let n = d as usize;
    pool.extract(&mut out[..n]);
}
