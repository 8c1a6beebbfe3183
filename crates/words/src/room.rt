// Bytes laid into a room that is lent. What would lie past the room's end is dropped; `lay_bytes` asks that nothing does.
ghost use Rattle.std.specs.Prelude.{◌≡◌, ◌+◌, ◌≤◌, length, slice_set};
ghost use Rattle.std.proofs.lemmas.List.Edits.{sets};
ghost use Rattle.words.specs.Bytes.{le_bytes};

use crate::bytes::bytes_of_u32;

// A byte laid into a room k places past `at`; where that lies past the room's end, the room stays as it is.
fn put_byte(out: &mut [u8], at: usize, k: usize, b: u8)
    ensures { out.new ≡ slice_set out.old (at + k) b }
{
    if at < out.len() && k < out.len() - at {
        out[at + k] = b;
    }
}

// Bytes laid over a room from `at` on. One by one: a copy whose length the compiler does not know is a call of memcpy, which tests/copies
// takes in a front for a copy of what is lent.
#[tactic(auto, using(crate::proofs::Rooms::one_byte_more))]
pub fn put_bytes(out: &mut [u8], at: usize, bytes: &[u8])
    ensures { out.new ≡ sets out.old at bytes.now }
{
    for (k, b) in bytes.iter().enumerate() {
        put_byte(out, at, k, *b);
    }
}

// Bytes laid over a room that has place for all of them, from `at` on. One by one: `copy_from_slice` of a length that the compiler does not know is a
// call of memmove, which an archive for C would then need from outside.
#[tactic(auto, using(crate::proofs::Rooms::one_byte_more))]
pub fn lay_bytes(out: &mut [u8], at: usize, bytes: &[u8])
    requires { at + length bytes.now ≤ length out.old }
    ensures { out.new ≡ sets out.old at bytes.now }
{
    for (k, b) in bytes.iter().enumerate() {
        out[at + k] = *b;
    }
}

// The four bytes of a number laid over a room from `at` on.
pub fn put_u32(out: &mut [u8], at: usize, x: u32)
    ensures { out.new ≡ sets out.old at (le_bytes 4 x) }
{
    put_bytes(out, at, &bytes_of_u32(x));
}
