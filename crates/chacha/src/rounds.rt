// The quarter round and the double round.
ghost use Rattle.std.specs.Prelude.{◌≡◌};
ghost use Rattle.chacha.specs.Chacha.{quarter, inner_block};

use words::rotate_left;

// Four words of a state, by the names that RFC 7539 and the definition `quarter` give them.
#[derive(Clone, Copy)]
pub struct Four {
    pub a: u32,
    pub b: u32,
    pub c: u32,
    pub d: u32,
}

// The quarter round on four words by themselves. A state that goes from call to call as four numbers stays in registers, word by word.
#[tactic(auto, unfolding(crate::specs::Chacha::quarter))]
pub fn quarter(a: u32, b: u32, c: u32, d: u32) -> Four
    ensures { result ≡ quarter a b c d }
{
    let a1 = a.wrapping_add(b);
    let d1 = rotate_left(d ^ a1, 16);
    let c1 = c.wrapping_add(d1);
    let b1 = rotate_left(b ^ c1, 12);
    let a2 = a1.wrapping_add(b1);
    let d2 = rotate_left(d1 ^ a2, 8);
    let c2 = c1.wrapping_add(d2);
    let b2 = rotate_left(b1 ^ c2, 7);
    Four {
        a: a2,
        b: b2,
        c: c2,
        d: d2,
    }
}

// Two rounds: the columns, then the diagonals. The four quarters of a round have no word in common, so their order is free; in this one
// the fewest words have to leave the registers of x86-64.
pub fn inner_block(s: [u32; 16]) -> [u32; 16]
    ensures { result ≡ inner_block s }
{
    let r = quarter(s[2], s[6], s[10], s[14]);
    let t = quarter(s[3], s[7], s[11], s[15]);
    let q = quarter(s[1], s[5], s[9], s[13]);
    let p = quarter(s[0], s[4], s[8], s[12]);
    let u = quarter(p.a, q.b, r.c, t.d);
    let x = quarter(t.a, p.b, q.c, r.d);
    let v = quarter(q.a, r.b, t.c, p.d);
    let w = quarter(r.a, t.b, p.c, q.d);
    [
        u.a, v.a, w.a, x.a, x.b, u.b, v.b, w.b, w.c, x.c, u.c, v.c, v.d, w.d, x.d, u.d,
    ]
}
