// `nk issue`: message numbers, issued behind a journal.
//
// All words are judged before anything is read or written, so that a word that makes no sense leaves no line behind. What a line is, and that the
// keeper is the one that the journal's transcript leaves, is said by the contracts of `numbering`, and what a word means by those of `lab`.
use desk::{DESK_BYTES, Desk};
use journal::scan;
use keeper::Keeper;
use lab::{
    LONGEST_FIELD, MOST, Reader, StandardError, Status, Told, bring, check_classes, class_at,
    clock_at, complain, ended, write,
};
use ledger::refusals::DONE;
use numbering::{LONGEST_ISSUED, number_line, replay_on};
use std::ops::Range;
use std::rt::{Env, Files};
use steps::fresh_keeper;

// The number for the class that argument i is, and its line written. The word was judged before; where it is none all the same, nothing is
// issued for it.
fn issue_one(
    rt: &(impl Env + Print + StandardError),
    i: usize,
    k: &mut Keeper,
    desk: &mut Desk,
    at: u32,
) -> Result<Reader, Told> {
    let mut room = [0u8; LONGEST_FIELD];
    let field = class_at(rt, i, &mut room)?;
    let mut line = [0u8; LONGEST_ISSUED];
    let n = number_line(k, desk, at, field, &mut line);
    write(rt, &line[..n])
}

// A number for each of some words, behind a journal that ends with 0; and the last line. The desk is empty at first.
fn issue_all(
    rt: &(impl Env + Print + StandardError),
    j: &[u8],
    at: u32,
    words: Range<usize>,
) -> Result<Status, Told> {
    let mut k = fresh_keeper();
    replay_on(j, &mut k);
    let mut desk = Desk {
        count: 0,
        numbers: [0; DESK_BYTES],
    };
    for i in words {
        if issue_one(rt, i, &mut k, &mut desk, at)? == Reader::Gone {
            return Ok(Status::Good);
        }
    }
    ended(rt, DONE)
}

// Message numbers behind a journal, one for each class. One that does not end with 0 has its number told, and nothing is issued.
pub fn issue(
    rt: &(impl Env + Files + Print + StandardError),
    words: Range<usize>,
) -> Result<Status, Told> {
    if words.len() < 3 {
        return Err(complain(
            rt,
            &[b"nk: issue wants a journal, a clock and classes; nk --help says what there is\n"],
        ));
    }
    let first = words.start;
    let classes = first + 2..words.end;
    let clock = clock_at(rt, first + 1)?;
    // the same words again: a range is used up where it is gone over
    check_classes(rt, first + 2..words.end)?;
    let mut room = [0u8; MOST];
    let j = bring(rt, first, &mut room)?;
    if let Err(why) = scan(j) {
        return ended(rt, why.number());
    }
    issue_all(rt, j, clock, classes)
}
