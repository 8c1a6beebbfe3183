// What a run of the program comes to: the exit status that the launcher gives.
ghost use Rattle.std.specs.Prelude.{◌≡◌, max};
ghost use Rattle.journal.specs.Walking.{ending_of};
ghost use Rattle.lab.specs.Status.{status_of, number_of_status};

use crate::messages::{StandardError, Told};
use crate::output::write;
use journal::scan;
use ledger::refusals::{DONE, number_given};
use std::fs;
use std::fs::OpenOptions;
use std::io::Write;
use std::rt::Files;
use transcript::{LONGEST_END, ending};

// The better one first.
#[derive(Clone, Copy, PartialEq, Eq, PartialOrd, Ord)]
pub enum Status {
    // Everything ended with 0.
    Good,
    // A journal ended with another number.
    Ended,
    // A file could not be read or written, or the words make no sense.
    Failed,
}

// The descriptor that the status goes to, by the name that the system has for it. A shell can name no higher one, and none of this program's
// own files ever comes to it.
const STATUS_PATH: &str = "/proc/self/fd/9";

// The status of several things done: the worst of them.
pub fn worse(one: Status, other: Status) -> Status
    ensures { number_of_status result ≡ max (number_of_status one) (number_of_status other) }
{
    one.max(other)
}

// The status of what ended with a number.
fn status_of(number: u32) -> Status
    ensures { number_of_status result ≡ status_of number }
{
    match number {
        DONE => Status::Good,
        _ => Status::Ended,
    }
}

// The status of a journal, from its bytes alone: whether its transcript was read to the end, or by anybody, has no say.
pub fn judge(j: &[u8]) -> Status
    ensures { number_of_status result ≡ status_of (ending_of j.now) }
{
    status_of(number_given(scan(j)))
}

// Writes the last line of a word, `end` and the number that it came to, and answers the status.
pub fn ended(rt: &(impl Print + StandardError), number: u32) -> Result<Status, Told> {
    let mut line = [0u8; LONGEST_END];
    let n = ending(number, &mut line);
    write(rt, &line[..n])?;
    Ok(status_of(number))
}

fn digit(status: Status) -> u8 {
    match status {
        Status::Good => b'0',
        Status::Ended => b'1',
        Status::Failed => b'2',
    }
}

// Whether the descriptor for the status is open for writing: the system shows that by the mode of the link that stands for it.
fn is_listening(rt: &impl Files) -> bool {
    fs::symlink_metadata(rt, STATUS_PATH).is_ok_and(|link| !link.permissions().readonly())
}

// Tells the status to whoever started the program and opened the descriptor for it. Behind what that holds: the descriptor is opened anew by its
// name, and does not begin where the other stands.
pub fn tell(rt: &impl Files, status: Status) {
    if !is_listening(rt) {
        return;
    }
    let text = [digit(status), b'\n'];
    if let Ok(mut descriptor) = OpenOptions::new().append(true).open(rt, STATUS_PATH) {
        let _ = descriptor.write_all(&text);
    }
}
