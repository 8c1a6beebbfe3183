// Standard output.
use crate::messages::{StandardError, Told, fail};
use std::io;

// Whoever reads standard output.
#[derive(Clone, Copy, PartialEq, Eq)]
pub enum Reader {
    Listening,
    Gone,
}

// Writes bytes to standard output. That a reader has gone is no error; anything else is told.
pub fn write(rt: &(impl Print + StandardError), bytes: &[u8]) -> Result<Reader, Told> {
    match rt.write_all(bytes) {
        Ok(()) => Ok(Reader::Listening),
        Err(why) if why.kind() == io::ErrorKind::BrokenPipe => Ok(Reader::Gone),
        Err(why) => Err(fail(rt, b"nk: standard output", why)),
    }
}
