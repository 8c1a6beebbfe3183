// `nk append`: bytes appended to a journal, with its index.
ghost use Rattle.std.specs.Prelude.{◌≡◌, ◌+◌, ◌^◌, ◌<◌, length};

use crate::files::{MOST, bring};
use crate::messages::{StandardError, Told, complain};
use crate::replacing::replace_both;
use crate::status::{Status, ended};
use index::{FILE_MOST, Index, append_filed, file};
use journal::LARGEST;
use ledger::refusals::DONE;
use std::ops::Range;
use std::rt::{Env, Files};

// One byte more than the longest index: a file that fills it is none, and what else it has does not matter.
pub const INDEX_MOST: usize = FILE_MOST + 1;

// The room of a journal, whose bytes were brought into memory. Of one that is too large the first bytes are enough.
pub fn roomed(j: &[u8]) -> [u8; LARGEST]
    ensures { length result ≡ 61440 }
{
    let n = j.len().min(LARGEST);
    let mut room = [0u8; LARGEST];
    room[..n].copy_from_slice(&j[..n]);
    room
}

fn write_both(
    rt: &(impl Env + Files + Print + StandardError),
    i: usize,
    j: &[u8],
    it: Index,
    before: &[u8],
) -> Result<Status, Told>
    requires { i + 2 < 2 ^ 64 }
{
    let mut text = [0u8; FILE_MOST];
    let n = file(it, &mut text);
    replace_both(rt, i, j, i + 1, &text[..n], before)?;
    ended(rt, DONE)
}

// Appends the bytes of a file to a journal, and writes both anew. `i` is the journal's argument, and its index comes next.
fn append_bytes(
    rt: &(impl Env + Files + Print + StandardError),
    i: usize,
    j: &[u8],
    before: &[u8],
    more: &[u8],
) -> Result<Status, Told>
    requires { i + 2 < 2 ^ 64 }
{
    let mut room = roomed(j);
    let done = append_filed(&mut room, j.len(), before, more);
    if done.number != DONE {
        return ended(rt, done.number);
    }
    let n = done.len;
    write_both(rt, i, &room[..n], done.index, before)
}

pub fn append(
    rt: &(impl Env + Files + Print + StandardError),
    words: Range<usize>,
) -> Result<Status, Told> {
    if words.len() != 3 {
        return Err(complain(
            rt,
            &[
                b"nk: append wants a journal, its index and a file of records; nk --help says what there is\n",
            ],
        ));
    }
    let first = words.start;
    let mut journal = [0u8; MOST];
    let j = bring(rt, first, &mut journal)?;
    let mut index = [0u8; INDEX_MOST];
    let before = bring(rt, first + 1, &mut index)?;
    let mut records = [0u8; MOST];
    let more = bring(rt, first + 2, &mut records)?;
    append_bytes(rt, first, j, before, more)
}
