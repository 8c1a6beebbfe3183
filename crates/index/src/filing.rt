// The index as a file.
ghost use Rattle.std.specs.Prelude.{◌≡◌, [], ◌∷◌, ◌≤◌, min, length, take};
ghost use Rattle.std.proofs.lemmas.List.Edits.{sets};
ghost use Rattle.words.specs.Bytes.{le_bytes, words_bytes};
ghost use Rattle.index.specs.Filing.{used, file_of};
ghost use Rattle.index.specs.Calls.{same};

use crate::fresh::records;
use crate::summary::{Index, KINDS, PLACES};
use words::put_u32;

// Where the places begin, behind the mark, the version, six counts and the sum; and the most bytes of a file.
const PLACES_BEGIN: usize = 33;

pub const FILE_MOST: usize = PLACES_BEGIN + 4 * PLACES;

// Words laid into a room from a place on.
fn lay_words(words: &[u32], room: &mut [u8], at: usize)
    requires { (length words.now ≤ 138) × (at ≤ 33) }
    ensures { room.new ≡ sets room.old at (words_bytes words.now) }
{
    for (i, word) in words.iter().enumerate() {
        put_u32(room, at + 4 * i, *word);
    }
}

// The mark and the version.
fn open(room: &mut [u8; FILE_MOST])
    ensures { room.new ≡ sets room.old 0 (78 ∷ 75 ∷ 73 ∷ 1 ∷ 0 ∷ []) }
{
    room[..5].copy_from_slice(b"NKI\x01\x00");
}

// How many places are used: one for every 64 records that were begun, and no more than there are.
fn places_used(kinds: &[u32; KINDS]) -> usize
    ensures { (result ≡ min (used kinds.now) 138) × (result ≤ 138) }
{
    let n = records(kinds).div_ceil(64);
    n.min(PLACES as u64) as usize
}

// The counts of the kinds, and the places that are used: each where it belongs.
fn lay_kinds(kinds: &[u32; KINDS], room: &mut [u8; FILE_MOST])
    ensures { room.new ≡ sets room.old 5 (words_bytes kinds.now) }
{
    lay_words(kinds, room, 5);
}

fn lay_places(places: &[u32; PLACES], n: usize, room: &mut [u8; FILE_MOST])
    requires { n ≤ 138 }
    ensures { room.new ≡ sets room.old 33 (words_bytes (take n places.now)) }
{
    lay_words(&places[..n], room, PLACES_BEGIN);
}

// The sum of the lengths.
fn lay_sum(reads: u32, room: &mut [u8; FILE_MOST])
    ensures { room.new ≡ sets room.old 29 (le_bytes 4 reads) }
{
    put_u32(room, 29, reads);
}

// The file of an index laid at the start of a room, and how many bytes it has.
pub fn file(index: Index, room: &mut [u8; FILE_MOST]) -> usize
    ensures room_after { (room.new ≡ sets room.old 0 (file_of index)) × (result ≡ length (file_of index)) }
    ensures upper_bound { (result ≤ 585) × (length room.new ≡ 585) }
{
    let n = places_used(&index.kinds);
    open(room);
    lay_kinds(&index.kinds, room);
    lay_sum(index.reads, room);
    lay_places(&index.places, n, room);
    PLACES_BEGIN + 4 * n
}

// Whether a file is that of an index, to the last byte.
pub fn same_file(given: &[u8], index: Index) -> bool
    ensures { result ≡ same given.now (file_of index) }
{
    let mut room = [0u8; FILE_MOST];
    let n = file(index, &mut room);
    given == &room[..n]
}
