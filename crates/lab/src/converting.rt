// `nk convert`: a journal of version 1, written to a file as version 2.
use crate::files::{MOST, bring, check_name};
use crate::messages::{StandardError, Told, complain};
use crate::replacing::replace;
use crate::status::{Status, ended};
use convert::nk_convert;
use journal::LARGEST;
use ledger::refusals::DONE;
use std::ops::Range;
use std::rt::{Env, Files};

// The outcome fits its room, since one that is larger is refused. The file may be the journal's own, which is then replaced as a whole.
fn write_converted(
    rt: &(impl Env + Files + Print + StandardError),
    j: &[u8],
    i: usize,
) -> Result<Status, Told> {
    let mut room = [0u8; LARGEST];
    let it = nk_convert(j, &mut room);
    if it.number != DONE {
        return ended(rt, it.number);
    }
    let n = it.len;
    replace(rt, i, &room[..n])?;
    ended(rt, DONE)
}

pub fn convert(
    rt: &(impl Env + Files + Print + StandardError),
    words: Range<usize>,
) -> Result<Status, Told> {
    if words.len() != 2 {
        return Err(complain(
            rt,
            &[
                b"nk: convert wants a journal and the name of a file to write; nk --help says what there is\n",
            ],
        ));
    }
    let first = words.start;
    check_name(rt, first + 1)?;
    let mut room = [0u8; MOST];
    let j = bring(rt, first, &mut room)?;
    write_converted(rt, j, first + 1)
}
