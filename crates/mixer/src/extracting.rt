// Extracting bytes from a pool of 128 or 32 words, in blocks of 10.
ghost use Rattle.std.specs.Prelude.{◌≡◌, map, ◌+◌, ◌-◌, ◌++◌, ◌≤◌, min, length, take, drop};
ghost use Rattle.std.proofs.lemmas.List.Edits.{sets};
ghost use Rattle.words.specs.Bytes.{swapped, words_bytes};
ghost use Rattle.secure_hash.specs.Sha1.{initial_hash};
ghost use Rattle.pool.specs.Mixing.{mix, twist_table};
ghost use Rattle.ledger.specs.Shapes.{rounds};
ghost use Rattle.pool.specs.Extracting.{hashed, pool_hash, folded, extract};
ghost use Rattle.mixer.specs.Sizes.{shape_of, Size};
ghost use Rattle.mixer.specs.Pools.{pool_of, shape};

use crate::mixing::TWISTS;
use crate::pools::Pool;
use secure_hash::{compress_in, initial_hash};
use words::{bytes_of_u32, put_u32, rotate_left, swap_bytes};

// The 16 words from k on, each with its bytes swapped, into the ring: a block as SHA-1 reads it. By index, since it goes over two lists.
fn message(ws: &[u32], k: usize, m: &mut [u32; 16])
    requires { k + 16 ≤ length ws.now }
    ensures { m.new ≡ map swapped (take 16 (drop k ws.now)) }
{
    for i in 0..16 {
        m[i] = swap_bytes(ws[k + i]);
    }
}

// The hash of the whole pool, by a ring that is lent. It takes the words as a slice, so that there is one for both pools: `compress_in` then has one
// caller and becomes part of it, without which an extraction takes up to 6 parts in 100 longer.
fn hash_pool(ws: &[u32], ring: &mut [u32; 16]) -> [u32; 5]
    requires { Size (length ws.now) }
    ensures { result ≡ (hashed (rounds (shape_of (length ws.now))) initial_hash ws.now).words }
{
    let mut h = initial_hash();
    for k in (0..ws.len()).step_by(16) {
        // by way of `g`: the prover does not follow an array from a call straight into a variable that stands already
        message(ws, k, ring);
        let g = compress_in(h, ring);
        h = g;
    }
    h
}

// .. of a pool that is lent.
fn hash_of<const N: usize>(pool: &Pool<N>, ring: &mut [u32; 16]) -> [u32; 5]
    ensures { result ≡ (pool_hash (shape pool.now) (pool_of pool.now)).words }
{
    hash_pool(pool.words, ring)
}

// The ten bytes that a hash is folded to.
fn folded(h: [u32; 5]) -> [u8; 10]
    ensures { result ≡ folded h }
{
    let a = bytes_of_u32(h[0] ^ h[3]);
    let b = bytes_of_u32(h[1] ^ h[4]);
    let c = bytes_of_u32(h[2] ^ rotate_left(h[2], 16));
    [a[0], a[1], a[2], a[3], b[0], b[1], b[2], b[3], c[0], c[1]]
}

// A hash as bytes.
fn hash_bytes(h: [u32; 5]) -> [u8; 20]
    ensures { result ≡ words_bytes h }
{
    let mut b = [0u8; 20];
    for i in 0..5 {
        put_u32(&mut b, i * 4, h[i]);
    }
    b
}

// The twist's table over a ring that was used, twice, so that no word of a schedule stays in it. A call of its own: the compiler would leave out the
// half that nothing reads.
#[inline(never)]
fn lay_table(ring: &mut [u32; 16])
    ensures { ring.new ≡ twist_table ++ twist_table }
{
    ring[..8].copy_from_slice(&TWISTS);
    ring[8..].copy_from_slice(&TWISTS);
}

// A hash mixed back into its pool. It goes in as bytes and not as words, and by `mix_by`, which becomes part of the extraction, where
// `mix_words` would be called. Under an extraction the stack is deepest, and the ring holds the last of a schedule, from which words of the pool
// could be worked out: so the table is laid over the ring, and lent from there.
fn mix_back<const N: usize>(pool: &mut Pool<N>, h: [u32; 5], ring: &mut [u32; 16])
    ensures same_words { pool.new.words.ghost_name ≡ pool.old.words.ghost_name }
    ensures pool_after { pool_of pool.new ≡ mix (shape pool.old) (pool_of pool.old) (words_bytes h) }
{
    let b = hash_bytes(h);
    lay_table(ring);
    pool.mix_by(&ring[..8], &b);
}

// A block laid into the room from k on, shortened to what is left of it.
fn put_block(out: &mut [u8], k: usize, b: [u8; 10])
    requires { k ≤ length out.old }
    ensures { out.new ≡ sets out.old k (take (min 10 (length out.old - k)) b) }
{
    let n = (out.len() - k).min(10);
    out[k..k + n].copy_from_slice(&b[..n]);
}

impl<const N: usize> Pool<'_, N> {
    // Fills the room with bytes extracted from the pool: as many as the room has.
    // Never a part of its caller: what is copied here goes into the room that is lent, and in a front no copy is made (tests/copies).
    #[inline(never)]
    pub fn extract(&mut self, out: &mut [u8])
        ensures same_words { self.new.words.ghost_name ≡ self.old.words.ghost_name }
        ensures pool_after { pool_of self.new ≡ (extract (shape self.old) (length out.old) (pool_of self.old)).pool }
        ensures out_after { out.new ≡ (extract (shape self.old) (length out.old) (pool_of self.old)).bytes }
    {
        let mut ring = [0u32; 16];
        for k in (0..out.len()).step_by(10) {
            let h = hash_of(self, &mut ring);
            mix_back(self, h, &mut ring);
            put_block(out, k, folded(h));
        }
    }
}
