// Mixing bytes into a pool of 128 or 32 words, once for both.
ghost use Rattle.std.specs.Prelude.{◌≡◌, [], ◌∷◌, ◌<◌, ◌≤◌, ◌%◌, length, get_or};
ghost use Rattle.words.specs.Bytes.{le_bytes, words_bytes};
ghost use Rattle.ledger.specs.Sizes.{input_words};
ghost use Rattle.ledger.specs.Places.{turned};
ghost use Rattle.pool.specs.Mixing.{twist_table, twisted, tapped, mix};
ghost use Rattle.mixer.specs.Sizes.{shape_of, Size, InPool, far_taps, TapsOf};
ghost use Rattle.mixer.specs.Mixed.{spot_of, Stands, Mixed};
ghost use Rattle.mixer.specs.Pools.{pool_of, shape};

use crate::pools::Pool;
use ledger::Spot;
use ledger::sizes::INPUT_WORDS;
use words::{bytes_of_u32, rotate_left};

// The taps of a pool, but for the last, which is 1 in both.
#[derive(Clone, Copy)]
struct Taps {
    a: usize,
    b: usize,
    c: usize,
    d: usize,
}

// A pool's place while bytes go in: position and rotation, and the word at the position. It is the one that was written last, and tap 1
// of the next byte: kept here, no byte waits for a store and a load of it.
#[derive(Clone, Copy)]
struct Place {
    at: usize,
    turn: u32,
    last: u32,
}

pub const TWISTS: [u32; 8] = [
    0x0000_0000,
    0x3b6e_20c8,
    0x76dc_4190,
    0x4db2_6158,
    0xedb8_8320,
    0xd6d6_a3e8,
    0x9b64_c2b0,
    0xa00a_e278,
];

const INPUT_TAPS: Taps = Taps {
    a: 104,
    b: 76,
    c: 51,
    d: 25,
};

const BLOCKING_TAPS: Taps = Taps {
    a: 26,
    b: 19,
    c: 14,
    d: 7,
};

// The taps of a pool of n words.
fn taps_of(n: usize) -> Taps
    ensures { TapsOf n result }
{
    if n == INPUT_WORDS {
        INPUT_TAPS
    } else {
        BLOCKING_TAPS
    }
}

// j modulo n, as a mask: by `%` a byte takes a third longer, measured.
fn around(j: usize, n: usize) -> usize
    requires { Size n }
    ensures { (result ≡ j % n) × (result < n) }
{
    j & (n - 1)
}

// A word after the twist. The table is lent: as a constant here it would be laid out anew for every byte. What it holds is asked and not kept in a
// type: there is one such table.
fn twist(w: u32, table: &[u32]) -> u32
    requires { table.now ≡ twist_table }
    ensures { result ≡ twisted w }
{
    let k = (w % 8) as usize;
    (w >> 3) ^ table[k]
}

// The rotation after a byte went in at a position.
fn turned(at: usize, turn: u32) -> u32
    requires { turn ≤ 31 }
    ensures { (result ≡ turned at turn) × (result ≤ 31) }
{
    if at == 0 {
        (turn + 14) % 32
    } else {
        (turn + 7) % 32
    }
}

// The word at j, modulo the word count. Below a pool its words go as a slice, one function for both sizes.
fn word_at(ws: &[u32], j: usize) -> u32
    requires { Size (length ws.now) }
    ensures { result ≡ get_or ws.now (j % (shape_of (length ws.now)).words) 0 }
{
    ws[around(j, ws.len())]
}

// x with the word at i and the words at four taps xored in.
fn blend(ws: &[u32], t: Taps, i: usize, x: u32) -> u32
    requires size { Size (length ws.now) }
    requires taps_of { TapsOf (length ws.now) t }
    requires i_in_bounds { i < length ws.now }
    ensures { result ≡ tapped (shape_of (length ws.now)) ws.now i (0 ∷ far_taps t) x }
{
    x ^ word_at(ws, i)
        ^ word_at(ws, i + t.a)
        ^ word_at(ws, i + t.b)
        ^ word_at(ws, i + t.c)
        ^ word_at(ws, i + t.d)
}

// One byte mixed in. A twist of two words' xor is the xor of their twists: so the word that was written last comes in after all
// that does not wait for it.
fn put(ws: &mut [u32], t: Taps, table: &[u32], p: Place, b: u8) -> Place
    requires table_value { table.now ≡ twist_table }
    requires stands { Stands ws.old p }
    requires taps_of { TapsOf (length ws.old) t }
    ensures { Mixed ws.old (spot_of p) (b ∷ []) ws.new result }
{
    let n = ws.len();
    let at = around(p.at + (n - 1), n);
    let w = blend(ws, t, at, rotate_left(b as u32, p.turn));
    let v = twist(w, table) ^ twist(p.last, table);
    ws[at] = v;
    let turn = turned(at, p.turn);
    Place { at, turn, last: v }
}

// The place of a spot. No `From`: what it asks of the words and of the spot, a conversion cannot ask.
fn place_of(ws: &[u32], s: Spot) -> Place
    requires { InPool (length ws.now) s }
    ensures { (spot_of result ≡ s) × Stands ws.now result }
{
    let at = s.at as usize;
    let w = ws[at];
    Place {
        at,
        turn: s.turn,
        last: w,
    }
}

// .. and back.
fn spot_of(p: Place) -> Spot
    requires { p.at < input_words }
    ensures { result ≡ spot_of p }
{
    Spot {
        at: p.at as u32,
        turn: p.turn,
    }
}

impl<const N: usize> Pool<'_, N> {
    // Bytes mixed into a pool of 128 or 32 words, the first first, by a table that the caller has. Without the table it is small enough for
    // the compiler to make it part of its caller; `mix` has a table of its own, without which a write takes 9 to 20 parts in 100 longer.
    pub fn mix_by(&mut self, table: &[u32], bytes: &[u8])
        requires { table.now ≡ twist_table }
        ensures same_words { self.new.words.ghost_name ≡ self.old.words.ghost_name }
        ensures pool_after { pool_of self.new ≡ mix (shape self.old) (pool_of self.old) bytes.now }
    {
        let ws = &mut *self.words;
        let t = taps_of(ws.len());
        let mut p = place_of(ws, self.spot);
        for b in bytes {
            p = put(ws, t, table, p, *b);
        }
        self.spot = spot_of(p);
    }

    // .. and by a table of its own. The bytes are lent anew: handed on as they are, they would go by way of the stack.
    pub fn mix(&mut self, bytes: &[u8])
        ensures same_words { self.new.words.ghost_name ≡ self.old.words.ghost_name }
        ensures pool_after { pool_of self.new ≡ mix (shape self.old) (pool_of self.old) bytes.now }
    {
        let table = TWISTS;
        self.mix_by(&table, &bytes[..]);
    }

    // Words, each as its four bytes, the first first. A call of its own: as part of an event, what it needs would lie on the stack under the
    // extraction that follows, and past nk_event's limit.
    #[inline(never)]
    pub fn mix_words(&mut self, words: &[u32])
        ensures same_words { self.new.words.ghost_name ≡ self.old.words.ghost_name }
        ensures pool_after { pool_of self.new ≡ mix (shape self.old) (pool_of self.old) (words_bytes words.now) }
    {
        let table = TWISTS;
        for x in words {
            self.mix_by(&table, &bytes_of_u32(*x));
        }
    }
}
