// The index of a journal, worked out afresh.
ghost use Rattle.std.specs.Prelude.{◌≡◌, ◌+◌, ◌^◌, ◌≤◌, ◌<◌, length, take, IfOk};
ghost use Rattle.journal.specs.Header.{largest, version_of};
ghost use Rattle.journal.specs.Layout.{sum};
ghost use Rattle.index.specs.Summary.{records_in};
ghost use Rattle.index.specs.Room.{Roomy};
ghost use Rattle.index.specs.Calls.{fresh_of, fresh_in, worked_out};

use crate::summary::{Index, KINDS, PLACES};
use crate::summing::add_records;
use journal::{LARGEST, header, version};
use ledger::Refusal;
use ledger::refusals::DONE;

// The number that a journal ends with, and its index; where the number is not 0, an index of nothing. C's form (include/nk_index.h).
#[repr(C)]
#[derive(Clone, Copy)]
pub struct Fresh {
    pub number: u32,
    pub index: Index,
}

// How many records there are of all kinds.
pub fn records(kinds: &[u32; KINDS]) -> u64
    ensures value { result ≡ sum kinds.now }
    ensures upper_bound { result < 2 ^ 35 }
{
    kinds.iter().map(|&n| u64::from(n)).sum()
}

// The version of the journal that the first `len` bytes of a room are.
pub fn version_in(room: &[u8], len: usize) -> u32
    requires { len ≤ length room.now }
    ensures { result ≡ version_of (take len room.now) }
{
    version(&room[..len])
}

// An index of nothing.
pub const NOTHING: Index = Index {
    places: [0; PLACES],
    kinds: [0; KINDS],
    reads: 0,
};

// The index of a journal, by one pass over it, or why the journal ends before its last byte.
pub fn work_out(j: &[u8]) -> Result<Index, Refusal>
    ensures value { worked_out result ≡ fresh_of j.now }
    ensures roomy { IfOk result (λ ix. Roomy (records_in ix) (length j.now) ix.kinds ix.reads) }
{
    let h = header(j)?;
    let mut index = NOTHING;
    add_records(h.version, j, h.place, 0, 0, &mut index)?;
    Ok(index)
}

// The same of the journal that the first `len` bytes of a room of 61,440 are.
pub fn fresh_in(room: &[u8], len: usize) -> Result<Index, Refusal>
    requires { length room.now ≡ largest }
    ensures value { worked_out result ≡ fresh_in room.now len }
    ensures roomy { IfOk result (λ ix. Roomy (records_in ix) len ix.kinds ix.reads) }
{
    if len > room.len() {
        return Err(Refusal::JournalTooLarge);
    }
    work_out(&room[..len])
}

// The same of a room, as C lends one and is answered.
pub fn nk_fresh_index(room: &[u8; LARGEST], len: usize) -> Fresh
    ensures { result ≡ fresh_in room.now len }
{
    match fresh_in(&room[..], len) {
        Ok(index) => Fresh {
            number: DONE,
            index,
        },
        Err(why) => Fresh {
            number: why.number(),
            index: NOTHING,
        },
    }
}
