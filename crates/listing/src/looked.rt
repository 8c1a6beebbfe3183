// What stands behind the number of a record that was looked up: one text where the record is there, and one where it is not.
ghost use Rattle.std.specs.Prelude.{◌∷◌, length};
ghost use Rattle.ledger.specs.Numbers.{done};
ghost use Rattle.journal.specs.Layout.{kind_of, fields_of};
ghost use Rattle.transcript.specs.Writing.{Adds, AddsAtMost, HasRoom};
ghost use Rattle.listing.specs.Listing.{spaced, found_text, gone_text, longest_found, longest_gone};

use crate::row::row;
use journal::Record;
use ledger::Refusal;
use transcript::text::Text;

// No text of a record that carries no bytes is longer, and each byte has two letters more; no text is longer where there is no record.
// `specs/Listing.antt` names them too.
pub const LONGEST_FOUND: usize = 149;

pub const LONGEST_GONE: usize = 22;

// The numbers of a record that was found, seven at most: 0, which says so, its place, its kind and its fields.
fn numbers(place: usize, it: Record, text: &mut Text)
    requires { HasRoom text.old 147 }
    ensures put { Adds text.old text.new (spaced (done ∷ place ∷ kind_of it ∷ fields_of it)) }
    ensures upper_bound { AddsAtMost text.old text.new 147 }
{
    // A row for each kind, since an array's length is in its type.
    let place = place as u64;
    let kind = u64::from(it.kind());
    match it {
        Record::Event {
            now,
            device,
            stamp,
            value,
        } => row(
            &[
                0,
                place,
                kind,
                now as u64,
                device as u64,
                stamp,
                value as u64,
            ],
            text,
        ),
        Record::Interrupt {
            now,
            number,
            stamp,
            address,
        } => row(
            &[0, place, kind, now as u64, number as u64, stamp, address],
            text,
        ),
        Record::Write { now, len } => row(&[0, place, kind, now as u64, len as u64], text),
        Record::Seed { now, len, credit } => {
            row(
                &[0, place, kind, now as u64, len as u64, credit as u64],
                text,
            )
        }
        Record::Read { now, len } | Record::BlockingRead { now, len } => {
            row(&[0, place, kind, now as u64, len as u64], text)
        }
    }
}

// A record that was found, at its place in the journal, with the bytes that it carries.
pub fn found(place: usize, it: Record, bytes: &[u8], text: &mut Text)
    requires { HasRoom text.old (longest_found (length bytes.now)) }
    ensures put { Adds text.old text.new (found_text place it bytes.now) }
    ensures upper_bound { AddsAtMost text.old text.new (longest_found (length bytes.now)) }
{
    numbers(place, it, text);
    text.tail(bytes);
    text.push(b'\n');
}

// A number that no record has.
pub fn gone(text: &mut Text)
    requires { HasRoom text.old longest_gone }
    ensures put { Adds text.old text.new gone_text }
    ensures upper_bound { AddsAtMost text.old text.new longest_gone }
{
    let why = Refusal::NoSuchRecord.number();
    row(&[why as u64], text);
    text.push(b'\n');
}
