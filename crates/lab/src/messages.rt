// What is said to a person where something is wrong: one line on standard error.
use std::io;
use std::io::{Cursor, Write};

// Standard error. It takes bytes, since a word or a file's name is shown as it was written, and that need not be text.
pub trait StandardError {
    fn complain(&self, text: &[u8]);
}

// Where standard error takes nothing, nobody can be told so.
impl StandardError for HostRuntime {
    fn complain(&self, text: &[u8]) {
        let _ = self.stderr().write_all(text);
    }
}

// Why nothing came of something, where a person was told. Only what tells makes one, so no error goes unsaid.
#[derive(Clone, Copy)]
pub struct Told(());

// Says what is wrong, in parts that come one behind another.
pub fn complain(rt: &impl StandardError, parts: &[&[u8]]) -> Told {
    for part in parts {
        rt.complain(part);
    }
    Told(())
}

pub fn not_the_journal(rt: &impl StandardError) -> Told {
    complain(
        rt,
        &[b"nk: this is the journal, or a copy of it: its index wants a file of its own\n"],
    )
}

// A word that is no record number.
pub fn no_number(rt: &impl StandardError, word: &[u8]) -> Told {
    complain(rt, &[b"nk: '", word, b"' is no record number\n"])
}

// A word that is no clock, and one that is no class.
pub fn no_clock(rt: &impl StandardError, word: &[u8]) -> Told {
    complain(
        rt,
        &[
            b"nk: '",
            word,
            b"' is no clock: a clock is a number from 0 to 4294967295\n",
        ],
    )
}

pub fn no_class(rt: &impl StandardError, word: &[u8]) -> Told {
    complain(
        rt,
        &[
            b"nk: '",
            word,
            b"' is no class: a class is drill, live or bytes in hexadecimal\n",
        ],
    )
}

pub fn word_too_long(rt: &impl StandardError) -> Told {
    complain(
        rt,
        &[b"nk: a word of more than 131,072 letters is neither a clock nor a class\n"],
    )
}

pub fn no_name(rt: &impl StandardError) -> Told {
    complain(rt, &[b"nk: an empty word is no file's name\n"])
}

// Said as the system says it of a name that it is handed.
pub fn name_too_long(rt: &impl StandardError) -> Told {
    complain(rt, &[b"nk: a file's name: File name too long\n"])
}

// More letters than the words for any error have.
const LONGEST_WORDS: usize = 320;

// The words for an error, without the number that stands behind those of the system's errors.
fn words(text: &str) -> &str {
    match text.split_once(" (os error ") {
        Some((words, _)) => words,
        None => text,
    }
}

// Says what failed, and the words for why.
pub fn fail(rt: &impl StandardError, what: &[u8], why: io::Error) -> Told {
    let mut told = Cursor::new([0u8; LONGEST_WORDS]);
    let _ = write!(told, "{why}");
    let n = (told.position() as usize).min(LONGEST_WORDS);
    let room = told.into_inner();
    let text = std::str::from_utf8(&room[..n]).unwrap_or("");
    complain(rt, &[what, b": ", words(text).as_bytes(), b"\n"])
}
