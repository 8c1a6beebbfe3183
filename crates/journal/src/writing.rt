// A header and records laid into a room that is lent, one behind another. Each function answers the place behind what it laid. The room and the place
// go side by side and not as one value, as a text's do in `transcript`: `put` is called with a place, and its promise is of the room.
ghost use Rattle.std.specs.Prelude.{◌≡◌, [], ◌∷◌, ◌+◌, ◌≤◌, length};
ghost use Rattle.std.proofs.lemmas.List.Edits.{sets};
ghost use Rattle.words.specs.Bytes.{le_bytes};
ghost use Rattle.journal.specs.Writing.{laid, head_of, bytes_of, header_for};

use crate::records::Record;
use crate::versions::device_bytes;
use words::{bytes_of_u64, lay_bytes};

// Bytes as they are.
fn lay(bytes: &[u8], room: &mut [u8], at: usize) -> usize
    requires { at + length bytes.now ≤ length room.old }
    ensures { (room.new ≡ sets room.old at bytes.now) × (result ≡ at + length bytes.now) }
{
    lay_bytes(room, at, bytes);
    at + bytes.len()
}

// A number in so many bytes, the lowest first.
fn lay_number(x: u64, width: usize, room: &mut [u8], at: usize) -> usize
    requires { (width ≤ 8) × (at + width ≤ length room.old) }
    ensures { (room.new ≡ sets room.old at (le_bytes width x)) × (result ≡ at + width) }
{
    lay(&bytes_of_u64(x)[..width], room, at)
}

// A kind, and the clock that every record has.
fn lay_clock(kind: u8, clock: u32, room: &mut [u8], at: usize) -> usize
    requires { at + 5 ≤ length room.old }
    ensures { (room.new ≡ sets room.old at (kind ∷ laid (4 ∷ []) (clock ∷ []))) × (result ≡ at + 5) }
{
    room[at] = kind;
    lay_number(clock as u64, 4, room, at + 1)
}

// The head of kinds 3, 5 and 6, and what kind 4 begins with.
fn lay_length(kind: u8, clock: u32, len: u64, room: &mut [u8], at: usize) -> usize
    requires { at + 7 ≤ length room.old }
    ensures { (room.new ≡ sets room.old at (kind ∷ laid (4 ∷ 2 ∷ []) (clock ∷ len ∷ []))) × (result ≡ at + 7) }
{
    let length_at = lay_clock(kind, clock, room, at);
    lay_number(len, 2, room, length_at)
}

// A record's kind and its fields.
fn lay_head(version: u32, it: Record, room: &mut [u8], at: usize) -> usize
    requires { at + length (head_of version it) ≤ length room.old }
    ensures { (room.new ≡ sets room.old at (head_of version it)) × (result ≡ at + length (head_of version it)) }
{
    match it {
        Record::Event {
            now,
            device,
            stamp,
            value,
        } => {
            let device_at = lay_clock(1, now, room, at);
            let stamp_at = lay_number(device as u64, device_bytes(version), room, device_at);
            let value_at = lay_number(stamp, 8, room, stamp_at);
            lay_number(value as u64, 4, room, value_at)
        }
        Record::Interrupt {
            now,
            number,
            stamp,
            address,
        } => {
            let number_at = lay_clock(2, now, room, at);
            let stamp_at = lay_number(number as u64, 4, room, number_at);
            let address_at = lay_number(stamp, 8, room, stamp_at);
            lay_number(address, 8, room, address_at)
        }
        Record::Write { now, len } => lay_length(3, now, len as u64, room, at),
        Record::Seed { now, len, credit } => {
            let credit_at = lay_length(4, now, len as u64, room, at);
            lay_number(credit as u64, 4, room, credit_at)
        }
        Record::Read { now, len } => lay_length(5, now, len as u64, room, at),
        Record::BlockingRead { now, len } => lay_length(6, now, len as u64, room, at),
    }
}

// A record, with the bytes that it carries.
pub fn put(version: u32, it: Record, carried: &[u8], room: &mut [u8], at: usize) -> usize
    requires { at + length (bytes_of version it carried.now) ≤ length room.old }
    ensures room_after { room.new ≡ sets room.old at (bytes_of version it carried.now) }
    ensures value { result ≡ at + length (bytes_of version it carried.now) }
{
    let behind = lay_head(version, it, room, at);
    lay(carried, room, behind)
}

// The header of a journal that begins with these bytes, at the room's start.
pub fn put_header(version: u32, start: &[u8], room: &mut [u8]) -> usize
    requires { length (header_for version start.now) ≤ length room.old }
    ensures room_after { room.new ≡ sets room.old 0 (header_for version start.now) }
    ensures value { result ≡ length (header_for version start.now) }
{
    let version_at = lay(b"NKJ", room, 0);
    let start_at = lay_number(version as u64, 2, room, version_at);
    lay(start, room, start_at)
}
