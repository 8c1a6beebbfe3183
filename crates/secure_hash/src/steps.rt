// The step, and four of them. 20 and 16 are multiples of four: so the four steps from a multiple of four on have one f_t and one K_t, and their
// words lie side by side in the ring.
ghost use Rattle.std.specs.Prelude.{◌≡◌, ◌/◌, ◌%◌, ◌<◌, drop};
ghost use Rattle.secure_hash.specs.Sha1.{mix, step, run};

use words::rotate_left;

const K: [u32; 4] = [0x5a82_7999, 0x6ed9_eba1, 0x8f1b_bcdc, 0xca62_c1d6];

// f_t of the steps 20 P to 20 P + 19: Ch, Parity, Maj, Parity. P is the number of FIPS 180-4's twenty, as the definitions have it; each is
// compiled by itself, so no step asks which it is of.
fn mix<const P: usize>(x: u32, y: u32, z: u32) -> u32
    ensures { result ≡ mix P x y z }
{
    match P {
        0 => (x & y) ^ (!x & z),
        2 => (x & y) ^ (x & z) ^ (y & z),
        _ => x ^ y ^ z,
    }
}

// One step of the twenty P with the word w.
#[tactic(auto, unfolding(crate::specs::Sha1::step, crate::specs::Sha1::constant))]
fn step<const P: usize>(s: [u32; 5], w: u32) -> [u32; 5]
    requires { P < 4 }
    ensures { result ≡ step P w s }
{
    let t = rotate_left(s[0], 5)
        .wrapping_add(mix::<P>(s[1], s[2], s[3]))
        .wrapping_add(s[4])
        .wrapping_add(K[P])
        .wrapping_add(w);
    [t, s[0], rotate_left(s[1], 30), s[2], s[3]]
}

// The four steps from step t on, which are all of the twenty P, with the ring that stands before step t.
pub fn of_twenty<const P: usize>(s: [u32; 5], t: usize, w: &[u32; 16]) -> [u32; 5]
    requires { (t < 80) × (t % 4 ≡ 0) × (t / 20 ≡ P) }
    ensures { result ≡ run t (drop (t % 16) w.now) 4 s }
{
    let a = t % 16;
    let s1 = step::<P>(s, w[a]);
    let s2 = step::<P>(s1, w[a + 1]);
    let s3 = step::<P>(s2, w[a + 2]);
    step::<P>(s3, w[a + 3])
}

// The four steps from step t on, whichever twenty they are of: tested at each four, since in a loop for each twenty a compression takes longer
// (docs/DECISIONS.md).
pub fn four(s: [u32; 5], t: usize, w: &[u32; 16]) -> [u32; 5]
    requires { (t < 80) × (t % 4 ≡ 0) }
    ensures { result ≡ run t (drop (t % 16) w.now) 4 s }
{
    if t < 20 {
        of_twenty::<0>(s, t, w)
    } else if t < 40 {
        of_twenty::<1>(s, t, w)
    } else if t < 60 {
        of_twenty::<2>(s, t, w)
    } else {
        of_twenty::<3>(s, t, w)
    }
}
