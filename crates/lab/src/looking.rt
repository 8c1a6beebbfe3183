// `nk look`: records of a journal by their numbers.
ghost use Rattle.std.specs.Prelude.{◌≡◌, ◌+◌, ◌-◌, ◌*◌, ◌≤◌, length};
ghost use Rattle.journal.specs.Header.{version_of};
ghost use Rattle.journal.specs.Reading.{read_at};
ghost use Rattle.transcript.specs.Text.{Put};
ghost use Rattle.transcript.specs.Writing.{Adds, AddsAtMost, HasRoom};
ghost use Rattle.lab.specs.Looks.{record_text, look_line};

use crate::appending::{INDEX_MOST, roomed};
use crate::files::{MOST, bring};
use crate::messages::{StandardError, Told, complain, no_number};
use crate::names::word_at;
use crate::numbers::{number, zeros_before};
use crate::output::{Reader, write};
use crate::status::{Status, ended};
use index::{NUMBERS, look_filed};
use journal::{payload, read, version};
use ledger::refusals::DONE;
use listing::{LONGEST_FOUND, found, gone};
use std::ops::Range;
use std::rt::{Env, Files};
use transcript::text::Text;

// The most letters of a word that is a number, and the longest line of one.
const WORD: usize = 256;

const LINE: usize = WORD + LONGEST_FOUND + 2 * 4096;

// The record at a place, in the journal's version, with the bytes that it carries, as text.
fn tell_record(j: &[u8], place: usize, text: &mut Text)
    requires { HasRoom text.old (149 + 2 * 4096) }
    ensures put { Adds text.old text.new (record_text j.now place (read_at (version_of j.now) j.now place)) }
    ensures upper_bound { AddsAtMost text.old text.new (149 + 2 * 4096) }
{
    if let Ok(Some((it, next))) = read(version(j), j, place) {
        found(place, it, payload(j, next, it.carried()), text);
    }
}

// The line of a number, by what was found of it; answers how many bytes it has.
fn tell_line(j: &[u8], name: &[u8], answer: u32, place: u32, room: &mut [u8]) -> usize
    requires { (length name.now ≤ 256) × (length room.old ≡ 8597) }
    ensures put { Put room.old room.new 0 (look_line j.now name.now answer place) result }
    ensures upper_bound { (result ≤ 8597) × (length room.new ≡ 8597) }
{
    let mut text = Text::new(room);
    text.letters(name);
    if answer == DONE {
        tell_record(j, place as usize, &mut text);
    } else {
        gone(&mut text);
    }
    text.len()
}

// The line of the number that argument i is, written.
fn tell_one(
    rt: &(impl Env + Print + StandardError),
    j: &[u8],
    i: usize,
    answer: u32,
    place: u32,
) -> Result<Reader, Told> {
    let mut letters = [0u8; WORD];
    let word = word_at(rt, i, &mut letters).unwrap_or(&[]);
    let name = &word[zeros_before(word)..];
    let mut room = [0u8; LINE];
    let n = tell_line(j, name, answer, place, &mut room);
    write(rt, &room[..n])
}

// The lines of the numbers that some words are, and the last line. Answers and places are two arrays, as C's call has them.
fn tell_all(
    rt: &(impl Env + Print + StandardError),
    j: &[u8],
    words: Range<usize>,
    answers: &[u32; NUMBERS],
    places: &[u32; NUMBERS],
) -> Result<Status, Told>
    requires { words.end - words.start ≤ 64 }
{
    for (i, (answer, place)) in words.zip(answers.iter().zip(places)) {
        if tell_one(rt, j, i, *answer, *place)? == Reader::Gone {
            return Ok(Status::Good);
        }
    }
    ended(rt, DONE)
}

// One more number than a call takes: that there is one is enough to be refused.
const SOME: usize = NUMBERS + 1;

// Reads the numbers that some words are, the first 65 of them into a room. A word that is no number is told, and then it is none of them.
fn gather(
    rt: &(impl Env + StandardError),
    words: Range<usize>,
    numbers: &mut [u32; SOME],
) -> Result<(), Told> {
    for (at, i) in words.enumerate() {
        let mut letters = [0u8; WORD];
        let word = word_at(rt, i, &mut letters).unwrap_or(&[]);
        let value = number(word).ok_or_else(|| no_number(rt, word))?;
        if at < SOME {
            numbers[at] = value;
        }
    }
    Ok(())
}

fn look_up(
    rt: &(impl Env + Print + StandardError),
    j: &[u8],
    file: &[u8],
    words: Range<usize>,
    numbers: &[u32],
) -> Result<Status, Told>
    requires { words.end - words.start ≡ length numbers.now }
{
    let room = roomed(j);
    let mut answers = [0u32; NUMBERS];
    let mut places = [0u32; NUMBERS];
    let refused = look_filed(&room, j.len(), file, numbers, &mut answers, &mut places);
    if refused != DONE {
        return ended(rt, refused);
    }
    tell_all(rt, j, words, &answers, &places)
}

pub fn look(
    rt: &(impl Env + Files + Print + StandardError),
    words: Range<usize>,
) -> Result<Status, Told> {
    if words.len() < 3 {
        return Err(complain(
            rt,
            &[
                b"nk: look wants a journal, its index and record numbers; nk --help says what there is\n",
            ],
        ));
    }
    let first = words.start;
    let mut numbers = [0u32; SOME];
    gather(rt, first + 2..words.end, &mut numbers)?;
    let mut journal = [0u8; MOST];
    let j = bring(rt, first, &mut journal)?;
    let mut index = [0u8; INDEX_MOST];
    let file = bring(rt, first + 1, &mut index)?;
    let n = (words.len() - 2).min(SOME);
    look_up(rt, j, file, first + 2..first + 2 + n, &numbers[..n])
}
