// The words of `nk issue`: its clock and its classes. One that is none is told, and what it was given to say is not guessed.
//
// An argument that is longer than its room looks like an empty word, and an empty word is a class field: so whether it was whole is asked first. The
// room is as long as the longest argument that Linux hands to a program where its pages have 4,096 bytes; where they are larger, a longer one may
// come, and it is refused.
ghost use Rattle.std.specs.Prelude.{◌≤◌, length, IfOk};

use crate::classes::read_class;
use crate::clocks::read_clock;
use crate::messages::{StandardError, Told, no_class, no_clock, word_too_long};
use crate::names::word_at;
use std::ops::Range;
use std::rt::Env;

const LONGEST_WORD: usize = 131072;

// The most bytes that a class field has: two letters make one.
pub const LONGEST_FIELD: usize = LONGEST_WORD / 2;

// The clock that argument i is.
pub fn clock_at(rt: &(impl Env + StandardError), i: usize) -> Result<u32, Told> {
    let mut room = [0u8; LONGEST_WORD];
    let word = word_at(rt, i, &mut room).ok_or_else(|| word_too_long(rt))?;
    read_clock(word).ok_or_else(|| no_clock(rt, word))
}

// The field of the class that argument i is, at the start of a room.
pub fn class_at<'r>(
    rt: &(impl Env + StandardError),
    i: usize,
    room: &'r mut [u8; LONGEST_FIELD],
) -> Result<&'r [u8], Told>
    ensures { IfOk result (λ field. length field.now ≤ 65536) }
{
    let mut letters = [0u8; LONGEST_WORD];
    let word = word_at(rt, i, &mut letters).ok_or_else(|| word_too_long(rt))?;
    let n = read_class(word, &mut room[..]).ok_or_else(|| no_class(rt, word))?;
    Ok(&room[..n])
}

// Tells the first of some words that is no class.
pub fn check_classes(rt: &(impl Env + StandardError), words: Range<usize>) -> Result<(), Told> {
    let mut room = [0u8; LONGEST_FIELD];
    for i in words {
        class_at(rt, i, &mut room)?;
    }
    Ok(())
}
