// `nk index`: the index of a journal, written to a file.
use crate::files::{MOST, bring, check_name, glimpse};
use crate::messages::{StandardError, Told, complain, not_the_journal};
use crate::output::{Reader, write};
use crate::replacing::replace;
use crate::status::{Status, ended};
use index::{FILE_MOST, Index, file, work_out};
use ledger::refusals::DONE;
use listing::{LONGEST_SUMS, sums};
use std::ops::Range;
use std::rt::{Env, Files};
use transcript::text::Text;

// Whether the file that argument i names has the bytes of the journal: it is the journal then, by this or another name, or a copy of it.
fn is_the_journal(rt: &(impl Env + Files), j: &[u8], i: usize) -> bool {
    let mut room = [0u8; MOST];
    j == glimpse(rt, i, &mut room)
}

// The sums of an index, and the last line.
fn tell_sums(rt: &(impl Print + StandardError), it: Index) -> Result<Status, Told> {
    let mut room = [0u8; LONGEST_SUMS];
    let mut text = Text::new(&mut room);
    sums(&it.kinds, it.reads, &mut text);
    let n = text.len();
    match write(rt, &room[..n])? {
        Reader::Listening => ended(rt, DONE),
        Reader::Gone => Ok(Status::Good),
    }
}

fn write_index(
    rt: &(impl Env + Files + Print + StandardError),
    j: &[u8],
    i: usize,
) -> Result<Status, Told> {
    // no `?`: a journal that is refused is told by its number, and is no error
    let it = match work_out(j) {
        Ok(it) => it,
        Err(why) => return ended(rt, why.number()),
    };
    if is_the_journal(rt, j, i) {
        return Err(not_the_journal(rt));
    }
    let mut text = [0u8; FILE_MOST];
    let n = file(it, &mut text);
    replace(rt, i, &text[..n])?;
    tell_sums(rt, it)
}

pub fn index(
    rt: &(impl Env + Files + Print + StandardError),
    words: Range<usize>,
) -> Result<Status, Told> {
    if words.len() != 2 {
        return Err(complain(
            rt,
            &[
                b"nk: index wants a journal and the name of an index; nk --help says what there is\n",
            ],
        ));
    }
    let first = words.start;
    check_name(rt, first + 1)?;
    let mut room = [0u8; MOST];
    let j = bring(rt, first, &mut room)?;
    write_index(rt, j, first + 1)
}
