// A journal run from its first byte to its last, and its transcript written.
ghost use Rattle.std.specs.Prelude.{◌≡◌, ◌+◌, length, Ok};
ghost use Rattle.ledger.specs.Refusals.{number_of};
ghost use Rattle.journal.specs.Header.{header_of};
ghost use Rattle.lab.specs.declared.output.Reader.TheVariants.{Listening};
ghost use Rattle.nk.specs.Batches.{texts_of, Next};

use crate::batches::{ROOM, fill_room};
use journal::{header, payload};
use lab::{Reader, StandardError, Told, write};
use ledger::Refusal;
use ledger::sizes::START_BYTES;
use steps::{fresh_keeper, make_on};
use transcript::{LONGEST_END, ending};

// Hands the text of the transcript that comes next to standard output, and counts it. The journal is here for the contract, which says
// that these bytes are that text. The count is moved here alone: if a text were left out or handed over twice, the next one would not be
// the one that the count says.
fn hand_over(
    rt: &(impl Print + StandardError),
    j: &[u8],
    done: &mut usize,
    text: &[u8],
) -> Result<Reader, Told>
    requires { Next j.now done.old text.now }
    ensures { done.new ≡ done.old + 1 }
{
    *done += 1;
    write(rt, text)
}

// The transcript of a journal that has no records to run: one text, which has the header's number.
fn refuse(
    rt: &(impl Print + StandardError),
    j: &[u8],
    done: &mut usize,
    why: Refusal,
) -> Result<Reader, Told>
    requires done_value { done.old ≡ 0 }
    requires number_value { number_of why ≡ (header_of j.now).number }
    ensures { done.new ≡ length (texts_of j.now) }
{
    let mut line = [0u8; LONGEST_END];
    let n = ending(why.number(), &mut line);
    hand_over(rt, j, done, &line[..n])
}

// Runs a journal on a keeper made of its start bytes, and hands its texts over one by one for as long as standard output takes them. Where
// it took all that it was handed, it was handed all there are.
fn hand_over_all(
    rt: &(impl Print + StandardError),
    j: &[u8],
    done: &mut usize,
) -> Result<Reader, Told>
    requires { done.old ≡ 0 }
    ensures { result ≡ Ok Listening → done.new ≡ length (texts_of j.now) }
{
    // no `?`: a refusal is written, and no error
    let h = match header(j) {
        Ok(h) => h,
        Err(why) => return refuse(rt, j, done, why),
    };
    let mut k = fresh_keeper();
    make_on(&mut k, payload(j, h.place, START_BYTES));
    let mut at = h.place;
    let mut room = [0u8; ROOM];
    loop {
        let b = fill_room(h.version, j, at, &mut k, &mut room);
        let reader = hand_over(rt, j, done, &room[..b.count])?;
        if !b.more {
            return Ok(reader);
        }
        if let Reader::Gone = reader {
            return Ok(Reader::Gone);
        }
        at = b.at;
    }
}

// The transcript of a journal, written to standard output.
pub fn replay(rt: &(impl Print + StandardError), j: &[u8]) -> Result<Reader, Told> {
    let mut done: usize = 0;
    hand_over_all(rt, j, &mut done)
}
