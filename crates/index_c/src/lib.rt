// The calls of the crate `index` as C sees them, under the names that it links: include/nk_index.h has their declarations. Each only hands on
// what it is given, and promises what the call of `index` promises.
#![tactic(auto)]

ghost use Rattle.std.specs.Prelude.{◌≡◌};
ghost use Rattle.index.specs.Calls.{agrees, fresh_in, append_refused, appended, room_after, look_refused, answers_after, places_after};

use index::{Appended, Fresh, Index, NUMBERS};
use journal::LARGEST;

// The number that the journal in a room's first `len` bytes ends with, and its index, worked out afresh.
#[unsafe(no_mangle)]
pub extern "C" fn nk_fresh_index(room: &[u8; LARGEST], len: usize) -> Fresh
    ensures { result ≡ fresh_in room.now len }
{
    index::nk_fresh_index(room, len)
}

// Appends bytes to the journal that a room's first `len` bytes are, and to its index.
#[unsafe(no_mangle)]
pub extern "C" fn nk_append(
    room: &mut [u8; LARGEST],
    len: usize,
    index: Index,
    more: &[u8],
) -> Appended
    ensures value { result ≡ appended (append_refused (agrees index room.old len) room.old len more.now) room.old len index more.now }
    ensures room_after { room.new ≡ room_after (append_refused (agrees index room.old len) room.old len more.now) room.old len more.now }
{
    index::nk_append(room, len, index, more)
}

// Looks up to 64 records up by their numbers in the journal that a room's first `len` bytes are: for each 0 and its place, or 18.
#[unsafe(no_mangle)]
pub extern "C" fn nk_look(
    room: &[u8; LARGEST],
    len: usize,
    index: Index,
    numbers: &[u32],
    answers: &mut [u32; NUMBERS],
    found: &mut [u32; NUMBERS],
) -> u32
    ensures value { result ≡ look_refused (agrees index room.now len) room.now len numbers.now }
    ensures answers_after { answers.new ≡ answers_after result room.now len numbers.now answers.old }
    ensures found_after { found.new ≡ places_after result room.now len numbers.now found.old }
{
    index::nk_look(room, len, index, numbers, answers, found)
}
