// Files brought into memory.
ghost use Rattle.std.specs.Prelude.{◌≤◌, length, IfOk};
ghost use Rattle.std.specs.Io.{ReadsAtMost};

use crate::messages::{StandardError, Told, fail, no_name};
use crate::names::Name;
use journal::LARGEST;
use std::io::Read;
use std::rt::{Env, Files};
use std::{fs, io};

// One byte more than the longest journal: a file that fills it is too large, and what else it has does not matter.
pub const MOST: usize = LARGEST + 1;

// Reads until the room is full or the file ends. A pipe may give a file in small pieces. A loop, since the library's reads want all of a room, or a
// heap.
fn fill(file: &mut impl Read, room: &mut [u8]) -> io::Result<usize>
    ensures { ReadsAtMost result room.new }
{
    let mut done: usize = 0;
    while done < room.len() {
        let n = file.read(&mut room[done..])?;
        if n == 0 {
            return Ok(done);
        }
        done += n;
    }
    Ok(done)
}

// A file's name as std takes it: text.
pub fn path(name: &[u8]) -> io::Result<&str> {
    std::str::from_utf8(name).map_err(|_| {
        io::Error::new(
            io::ErrorKind::InvalidFilename,
            "a file's name that is not UTF-8",
        )
    })
}

// The start of a file, as much of it as the room holds.
fn read_start<'r>(rt: &impl Files, name: &[u8], room: &'r mut [u8]) -> io::Result<&'r [u8]>
    ensures { IfOk result (λ text. length text.now ≤ length room.old) }
{
    let mut file = fs::open(rt, path(name)?)?;
    let n = fill(&mut file, room)?;
    Ok(&room[..n])
}

// The start of the file that argument i names, as much of it as the room holds. Where it cannot be opened or read, that is told, with the
// system's words for why.
pub fn bring<'r>(
    rt: &(impl Env + Files + StandardError),
    i: usize,
    room: &'r mut [u8],
) -> Result<&'r [u8], Told>
    ensures { IfOk result (λ text. length text.now ≤ length room.old) }
{
    let name = Name::given(rt, i, b"")?;
    read_start(rt, name.bytes(), room).map_err(|why| fail(rt, name.said(), why))
}

// The same; of a file that cannot be read there are no bytes, and nothing is said.
pub fn glimpse<'r>(rt: &(impl Env + Files), i: usize, room: &'r mut [u8]) -> &'r [u8]
    ensures { length result.now ≤ length room.old }
{
    let Some(name) = Name::find(rt, i, b"") else {
        return &[];
    };
    read_start(rt, name.bytes(), room).unwrap_or(&[])
}

// Tells where argument i cannot be a file's name: where it is too long or empty.
pub fn check_name(rt: &(impl Env + StandardError), i: usize) -> Result<(), Told> {
    if Name::given(rt, i, b"")?.bytes().is_empty() {
        return Err(no_name(rt));
    }
    Ok(())
}
