// The records: what stands at a position of a journal, one function for each kind but the reads, which differ in their kind alone. A record is
// read only where all its bytes are there. Only an event depends on the version; what the other functions find stands there in every version.
ghost use Rattle.std.specs.Prelude.{◌≡◌, ℕ, ◌+◌, ◌-◌, ◌≤◌, ◌<◌, ◌⊎◌, length, drop};
ghost use Rattle.journal.specs.Found.{found};
ghost use Rattle.journal.specs.Layout.{kind_of, carries};
ghost use Rattle.journal.specs.Reading.{read_at, opened, carrying};

use crate::fields::{device, eight, four, two};
use crate::versions::device_bytes;
use ledger::Refusal;
use ledger::sizes::LONGEST;

// A record: its fields. The `len` bytes of a write or a seed are the last before the position after it; `payload` hands them over.
#[derive(Clone, Copy)]
pub enum Record {
    Event {
        now: u32,
        device: u32,
        stamp: u64,
        value: u32,
    },
    Interrupt {
        now: u32,
        number: u32,
        stamp: u64,
        address: u64,
    },
    Write {
        now: u32,
        len: usize,
    },
    Seed {
        now: u32,
        len: usize,
        credit: u32,
    },
    Read {
        now: u32,
        len: u32,
    },
    BlockingRead {
        now: u32,
        len: u32,
    },
}

impl Record {
    // Its kind, as the journal has it.
    #[tactic(auto, unfolding(crate::specs::Layout::kind_of))]
    pub fn kind(self) -> u8
        ensures { result ≡ kind_of self }
    {
        match self {
            Record::Event { .. } => 1,
            Record::Interrupt { .. } => 2,
            Record::Write { .. } => 3,
            Record::Seed { .. } => 4,
            Record::Read { .. } => 5,
            Record::BlockingRead { .. } => 6,
        }
    }

    // How many bytes it carries.
    #[tactic(auto, unfolding(crate::specs::Layout::carries))]
    pub fn carried(self) -> usize
        ensures { result ≡ carries self }
    {
        match self {
            Record::Write { len, .. } | Record::Seed { len, .. } => len,
            _ => 0,
        }
    }
}

// What stands at a position: a record and the position after it; no more bytes; or why the journal ends there.
type Found = Result<Option<(Record, usize)>, Refusal>;

// What stands at a position, in a version: any number, as the theorems have it. A walk is faster where it is a part of its caller. Version, bytes and
// position go side by side, here and wherever a journal is walked, as `read_at` and `walk` have them; a walk is a loop and no iterator, since it ends
// with a refusal as well as with its records.
#[inline(always)]
pub fn read(version: u32, j: &[u8], at: usize) -> Found
    ensures { found result ≡ read_at version j.now at }
{
    if j.len() <= at {
        return Ok(None);
    }
    match j[at] {
        1 => event(version, j, at),
        2 => interrupt(j, at),
        3 => write(j, at),
        4 => seed(j, at),
        5 => reading(5, j, at),
        6 => reading(6, j, at),
        _ => Err(Refusal::UnknownKind),
    }
}

// Kind 1. How far its fields lie behind the device depends on the version.
fn event(version: u32, j: &[u8], at: usize) -> Found
    requires { at < length j.now }
    ensures { found result ≡ opened version 1 (at + 1) (drop (at + 1) j.now) }
{
    let width = device_bytes(version);
    if j.len() - at < 17 + width {
        return Err(Refusal::CutShort);
    }
    let now = four(j, at + 1);
    let device = device(version, j, at + 5);
    let stamp = eight(j, at + 5 + width);
    let value = four(j, at + 13 + width);
    Ok(Some((
        Record::Event {
            now,
            device,
            stamp,
            value,
        },
        at + 17 + width,
    )))
}

// Kind 2.
fn interrupt(j: &[u8], at: usize) -> Found
    requires { at < length j.now }
    ensures { (v : ℕ) → found result ≡ opened v 2 (at + 1) (drop (at + 1) j.now) }
{
    if j.len() - at < 25 {
        return Err(Refusal::CutShort);
    }
    let now = four(j, at + 1);
    let number = four(j, at + 5);
    let stamp = eight(j, at + 9);
    let address = eight(j, at + 17);
    Ok(Some((
        Record::Interrupt {
            now,
            number,
            stamp,
            address,
        },
        at + 25,
    )))
}

// A record that carries the `len` bytes from `start` on: the length is judged before the bytes are.
fn carry(j: &[u8], it: Record, start: usize, len: usize) -> Found
    requires { (start ≤ length j.now) × (len ≡ carries it) }
    ensures { found result ≡ carrying it start (length j.now - start) }
{
    if len > LONGEST {
        return Err(Refusal::TooLong);
    }
    if j.len() - start < len {
        return Err(Refusal::CutShort);
    }
    Ok(Some((it, start + len)))
}

// Kind 3.
fn write(j: &[u8], at: usize) -> Found
    requires { at < length j.now }
    ensures { (v : ℕ) → found result ≡ opened v 3 (at + 1) (drop (at + 1) j.now) }
{
    if j.len() - at < 7 {
        return Err(Refusal::CutShort);
    }
    let now = four(j, at + 1);
    let len = usize::from(two(j, at + 5));
    carry(j, Record::Write { now, len }, at + 7, len)
}

// Kind 4. The credit stands between the length and the bytes.
fn seed(j: &[u8], at: usize) -> Found
    requires { at < length j.now }
    ensures { (v : ℕ) → found result ≡ opened v 4 (at + 1) (drop (at + 1) j.now) }
{
    if j.len() - at < 11 {
        return Err(Refusal::CutShort);
    }
    let now = four(j, at + 1);
    let len = usize::from(two(j, at + 5));
    let credit = four(j, at + 7);
    carry(j, Record::Seed { now, len, credit }, at + 11, len)
}

// Kinds 5 and 6, by the byte that stands there, as `opened` has it. The length may be any: what is too long to read is an answer of the keeper, and ends nothing.
fn reading(kind: u8, j: &[u8], at: usize) -> Found
    requires j_len_bound { at < length j.now }
    requires kind_value { (kind ≡ 5) ⊎ (kind ≡ 6) }
    ensures { (v : ℕ) → found result ≡ opened v kind (at + 1) (drop (at + 1) j.now) }
{
    if j.len() - at < 7 {
        return Err(Refusal::CutShort);
    }
    let now = four(j, at + 1);
    let len = u32::from(two(j, at + 5));
    let it = if kind == 5 {
        Record::Read { now, len }
    } else {
        Record::BlockingRead { now, len }
    };
    Ok(Some((it, at + 7)))
}
