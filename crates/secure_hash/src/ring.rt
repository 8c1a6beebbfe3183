// The message schedule as a ring of 16 words: before step t it has W_t to W_t+15, each at its number modulo 16.
ghost use Rattle.std.specs.Prelude.{◌≡◌, ◌%◌, ◌<◌, slice_index, slice_set};
ghost use Rattle.secure_hash.specs.Ring.{scheduled, turns};

use words::rotate_left;

// One word further: what the words at a, b, c and d make, in the place of the one at d.
fn turn(w: &mut [u32; 16], a: usize, b: usize, c: usize, d: usize)
    requires { (a < 16) × (b < 16) × (c < 16) × (d < 16) }
    ensures { w.new ≡ slice_set w.old d (scheduled (slice_index w.old a) (slice_index w.old b) (slice_index w.old c) (slice_index w.old d)) }
{
    w[d] = rotate_left(w[a] ^ w[b] ^ w[c] ^ w[d], 1);
}

// Four words further, after the four steps from step t on. The four that go are a quarter of the ring, since t is a multiple of four: so every
// place is a literal away from where a quarter begins, and the four share what there is to reckon.
pub fn next_four(w: &mut [u32; 16], t: usize)
    requires { (t < 64) × (t % 4 ≡ 0) }
    ensures { w.new ≡ turns t 4 w.old }
{
    let a = t % 16;
    let b = (t + 4) % 16;
    let c = (t + 8) % 16;
    let d = (t + 12) % 16;
    turn(w, d + 1, c, a + 2, a);
    turn(w, d + 2, c + 1, a + 3, a + 1);
    turn(w, d + 3, c + 2, b, a + 2);
    turn(w, a, c + 3, b + 1, a + 3);
}
