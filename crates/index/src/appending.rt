// Records appended to a journal, with its index.
ghost use Rattle.std.specs.Prelude.{◌≡◌, ◌++◌, ◌≤◌, length, take, IfOk};
ghost use Rattle.journal.specs.Header.{largest};
ghost use Rattle.journal.specs.Walking.{ending_of};
ghost use Rattle.index.specs.Summary.{index_of, records_in};
ghost use Rattle.index.specs.Room.{Roomy};
ghost use Rattle.index.specs.Calls.{agrees, file_agrees, fresh_in, worked_out, append_refused, appended, Extended, room_after};

use crate::at_hand::Kept;
use crate::fresh::{NOTHING, fresh_in, records, version_in};
use crate::summary::Index;
use crate::summing::add_records;
use journal::LARGEST;
use ledger::Refusal;
use ledger::refusals::DONE;
use words::lay_bytes;

// What came of appending: 0, and the longer journal's length and index; or the number that refused it, and both as they were. C's form
// (include/nk_index.h).
#[repr(C)]
#[derive(Clone, Copy)]
pub struct Appended {
    pub number: u32,
    pub len: usize,
    pub index: Index,
}

// Below, the room goes as a slice, of which parts are taken, and that it has as many bytes as a journal at the most is asked.
//
// Goes over the bytes to append, in the version of the journal before them, which has `len` bytes and whose index was worked out, and lays
// them into the room. Answers the longer journal's index.
fn extend(room: &mut [u8], len: usize, fresh: Index, more: &[u8]) -> Result<Index, Refusal>
    requires room_len { (length room.old ≡ largest) × (len ≤ largest) }
    requires len_value { fresh_in room.old len ≡ record { number = 0; index = fresh } }
    requires roomy { Roomy (records_in fresh) len fresh.kinds fresh.reads }
    ensures { Extended result (ending_of (take len room.old ++ more.now)) room.old len more.now room.new }
{
    if more.len() > room.len() - len {
        return Err(Refusal::JournalTooLarge);
    }
    let version = version_in(room, len);
    let count = records(&fresh.kinds) as usize;
    let mut index = fresh;
    add_records(version, more, 0, len, count, &mut index)?;
    lay_bytes(room, len, more);
    Ok(index)
}

// Appends where the journal ends with 0 and its index, which is worked out, is the one at hand.
fn append_if<K: Kept>(
    kept: &K,
    found: Result<Index, Refusal>,
    room: &mut [u8],
    len: usize,
    more: &[u8],
) -> Result<Index, Refusal>
    requires room_len { length room.old ≡ largest }
    requires found_value { worked_out found ≡ fresh_in room.old len }
    requires roomy { IfOk found (λ ix. Roomy (records_in ix) len ix.kinds ix.reads) }
    ensures { Extended result (append_refused (K.tells kept.now (index_of (take len room.old))) room.old len more.now) room.old len more.now room.new }
{
    let fresh = found?;
    if !kept.is(&fresh) {
        return Err(Refusal::IndexDiffers);
    }
    extend(room, len, fresh, more)
}

// The same with the index worked out, and the answer made.
fn append<K: Kept>(kept: &K, room: &mut [u8], len: usize, more: &[u8]) -> Appended
    requires { length room.old ≡ largest }
    ensures value { result ≡ appended (append_refused (K.tells kept.now (index_of (take len room.old))) room.old len more.now) room.old len (K.left kept.now (fresh_in room.old len).index) more.now }
    ensures room_after { room.new ≡ room_after (append_refused (K.tells kept.now (index_of (take len room.old))) room.old len more.now) room.old len more.now }
{
    let found = fresh_in(room, len);
    match append_if(kept, found, room, len, more) {
        Ok(index) => Appended {
            number: DONE,
            len: len + more.len(),
            index,
        },
        Err(why) => Appended {
            number: why.number(),
            len,
            index: kept.left(found.unwrap_or(NOTHING)),
        },
    }
}

// Appends bytes to the journal that a room's first `len` bytes are, and to its index.
pub fn nk_append(room: &mut [u8; LARGEST], len: usize, index: Index, more: &[u8]) -> Appended
    ensures value { result ≡ appended (append_refused (agrees index room.old len) room.old len more.now) room.old len index more.now }
    ensures room_after { room.new ≡ room_after (append_refused (agrees index room.old len) room.old len more.now) room.old len more.now }
{
    append(&index, &mut room[..], len, more)
}

// The same where the index is a file, with what C's call takes and answers: one promise is said of both. Where it is refused, the index that is answered is that of the journal as it is.
pub fn append_filed(room: &mut [u8; LARGEST], len: usize, file: &[u8], more: &[u8]) -> Appended
    ensures value { result ≡ appended (append_refused (file_agrees file.now room.old len) room.old len more.now) room.old len (fresh_in room.old len).index more.now }
    ensures room_after { room.new ≡ room_after (append_refused (file_agrees file.now room.old len) room.old len more.now) room.old len more.now }
{
    append(&file, &mut room[..], len, more)
}
