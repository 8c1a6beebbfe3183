// Words and files' names, as the program is given them.
ghost use Rattle.std.specs.Prelude.{◌≤◌, length, IfSome};

use crate::messages::{StandardError, Told, name_too_long};
use std::rt::Env;

// The word that argument i is, at the start of a room; none where it does not fit.
pub fn word_at<'r>(rt: &impl Env, i: usize, room: &'r mut [u8]) -> Option<&'r [u8]>
    ensures { IfSome result (λ word. length word.now ≤ length room.old) }
{
    let n = rt.arg(i, room).ok()?;
    Some(&room[..n])
}

// `nk: `, the longest name that a file has, and four letters behind it.
const SAID: usize = 4 + 4096 + 4;

// A file's name behind `nk: `: the start of a message about that file. The room is fixed, since the program has no heap,
// and an array with a length, since what reads an argument fills bytes that are there.
#[derive(Clone, Copy)]
pub struct Name {
    said: [u8; SAID],
    end: usize,
    ghost lower: { 4 ≤ end },
    ghost upper: { end ≤ 4104 },
}

impl Name {
    // The name that argument i is, with letters behind it: those of a file that is made beside another. A name that is too long is told.
    pub fn given(rt: &(impl Env + StandardError), i: usize, letters: &[u8]) -> Result<Name, Told>
        requires { length letters.now ≤ 4 }
    {
        Name::find(rt, i, letters).ok_or_else(|| name_too_long(rt))
    }

    // The same, where nothing is to be said.
    pub fn find(rt: &impl Env, i: usize, letters: &[u8]) -> Option<Name>
        requires { length letters.now ≤ 4 }
    {
        let mut said = [0u8; SAID];
        said[..4].copy_from_slice(b"nk: ");
        let n = 4 + rt.arg(i, &mut said[4..4100]).ok()?;
        let end = n + letters.len();
        said[n..end].copy_from_slice(letters);
        Some(Name { said, end })
    }

    pub fn said(&self) -> &[u8] {
        &self.said[..self.end]
    }

    pub fn bytes(&self) -> &[u8] {
        &self.said[4..self.end]
    }
}
