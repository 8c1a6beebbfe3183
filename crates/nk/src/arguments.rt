// What the program's words ask for, and the status of having done it.
use crate::message_numbers::issue;
use crate::messages::{help, no_file, unknown_word};
use crate::replaying::replay;
use lab::{
    MOST, Reader, StandardError, Status, Told, append, bring, convert, index, judge, look, tell,
    word_at, worse,
};
use std::env::FillError;
use std::ops::Range;
use std::rt::{Env, Files};

// The journal that argument i names, replayed where there is somebody to read it. Where there is not, the status is still the journal's own, so
// that it does not depend on how soon a reader goes.
fn replay_argument(
    rt: &(impl Env + Files + Print + StandardError),
    i: usize,
    reader: &mut Reader,
) -> Result<Status, Told> {
    let mut room = [0u8; MOST];
    let j = bring(rt, i, &mut room)?;
    if *reader == Reader::Listening {
        // Nothing more goes to an output that fails.
        *reader = Reader::Gone;
        *reader = replay(rt, j)?;
    }
    Ok(judge(j))
}

// The journals that some words name, in their order. The status is the worst of them: a file that cannot be read keeps no other from its turn.
fn replay_all(
    rt: &(impl Env + Files + Print + StandardError),
    words: Range<usize>,
) -> Result<Status, Told> {
    if words.is_empty() {
        return Err(no_file(rt));
    }
    let mut status = Status::Good;
    let mut reader = Reader::Listening;
    for i in words {
        let this = replay_argument(rt, i, &mut reader).unwrap_or(Status::Failed);
        status = worse(status, this);
    }
    Ok(status)
}

// A command, and the words behind it.
fn obey_command(
    rt: &(impl Env + Files + Print + StandardError),
    command: &[u8],
    words: Range<usize>,
) -> Result<Status, Told> {
    match command {
        b"replay" => replay_all(rt, words),
        b"index" => index(rt, words),
        b"append" => append(rt, words),
        b"look" => look(rt, words),
        b"convert" => convert(rt, words),
        b"issue" => issue(rt, words),
        b"--help" | b"-h" => help(rt),
        _ => Err(unknown_word(rt, command)),
    }
}

// The words, the first of which is the command. One that is longer than the room is none that is known, and is shown as none.
fn obey_words(
    rt: &(impl Env + Files + Print + StandardError),
    words: Range<usize>,
) -> Result<Status, Told> {
    if words.is_empty() {
        return help(rt);
    }
    let mut room = [0u8; 64];
    let command = word_at(rt, words.start, &mut room).unwrap_or(&[]);
    obey_command(rt, command, words.start + 1..words.end)
}

// Whether the first argument asks that the status be told. It is told to nobody who did not ask: the descriptor would be another's.
fn status_wanted(rt: &impl Env) -> bool {
    matches!(word_at(rt, 1, &mut [0u8; 64]), Some(b"--status-on-9"))
}

// How many arguments there are, the program's own name among them. One by one: the library's list of them is made on a heap.
fn arg_count(rt: &impl Env) -> usize {
    for i in 0..usize::MAX {
        if let Err(FillError::NotPresent) = rt.arg(i, &mut []) {
            return i;
        }
    }
    usize::MAX
}

// Does what the words ask. Here, and for each of several files, what went wrong and was told becomes a status.
pub fn obey(rt: &(impl Env + Files + Print + StandardError)) {
    let count = arg_count(rt);
    let asked = status_wanted(rt);
    let first = if asked { 2 } else { 1 };
    let status = obey_words(rt, first..count).unwrap_or(Status::Failed);
    if asked {
        tell(rt, status);
    }
}
