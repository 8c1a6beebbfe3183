// A journal written as version 2 into a room that is lent.
ghost use Rattle.std.specs.Prelude.{◌≡◌, ◌+◌, ◌≤◌, length};
ghost use Rattle.std.proofs.lemmas.List.Edits.{sets};
ghost use Rattle.ledger.specs.Refusals.{number_given};
ghost use Rattle.convert.specs.Converting.{outcome_of, refusal_of, converted_of, room_after};
ghost use Rattle.convert.specs.Passes.{rewritten};

use crate::judging::judge;
use journal::{LARGEST, RECORDS_BEGIN, header, payload, put, put_header, read};
use ledger::Refusal;
use ledger::refusals::DONE;
use ledger::sizes::START_BYTES;

// What came of converting: 0 and how many bytes were written; or the number that refused it, and none. C's form (include/nk_convert.h).
#[repr(C)]
#[derive(Clone, Copy)]
pub struct Converted {
    pub number: u32,
    pub len: usize,
}

// The first reason to refuse, if there is one, where the room has so many bytes.
fn refused(j: &[u8], room: usize) -> Result<(), Refusal>
    ensures { number_given result ≡ refusal_of j.now room }
{
    let h = header(j)?;
    let found = judge(h.version, j, h.place)?;
    if h.version != 1 {
        return Err(Refusal::VersionWrong);
    }
    if found.strange {
        return Err(Refusal::NoSuchDevice);
    }
    let len = j.len() + found.events;
    if len > LARGEST {
        return Err(Refusal::JournalTooLarge);
    }
    if room < len {
        return Err(Refusal::RoomTooShort);
    }
    Ok(())
}

// Lays the records from a position on, each as version 2 has it, into the room from a place on. Answers the place behind them.
fn write_records(j: &[u8], from: usize, room: &mut [u8], to: usize) -> usize
    requires { to + length (rewritten j.now from) ≤ length room.old }
    ensures room_after { room.new ≡ sets room.old to (rewritten j.now from) }
    ensures value { result ≡ to + length (rewritten j.now from) }
{
    let mut at = from;
    let mut place = to;
    while let Ok(Some((it, next))) = read(1, j, at) {
        place = put(2, it, payload(j, next, it.carried()), room, place);
        at = next;
    }
    place
}

// The outcome at the room's start. Answers its length.
fn write_out(j: &[u8], room: &mut [u8]) -> usize
    requires { refusal_of j.now (length room.old) ≡ 0 }
    ensures room_after { room.new ≡ sets room.old 0 (outcome_of j.now) }
    ensures value { result ≡ length (outcome_of j.now) }
{
    let start = payload(j, RECORDS_BEGIN, START_BYTES);
    let behind = put_header(2, start, room);
    write_records(j, RECORDS_BEGIN, room, behind)
}

// Writes a journal of version 1 as one of version 2, at the start of the room.
pub fn nk_convert(j: &[u8], room: &mut [u8]) -> Converted
    ensures value { result ≡ converted_of j.now (length room.old) }
    ensures room_after { room.new ≡ room_after j.now room.old }
{
    match refused(j, room.len()) {
        Ok(()) => Converted {
            number: DONE,
            len: write_out(j, room),
        },
        Err(why) => Converted {
            number: why.number(),
            len: 0,
        },
    }
}
