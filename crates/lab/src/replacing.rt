// Files replaced whole or not at all: a file is made beside its place, written, flushed, and renamed over it.
ghost use Rattle.std.specs.Prelude.{◌≤◌, length};

use crate::files::path;
use crate::messages::{StandardError, Told, fail};
use crate::names::Name;
use std::fs::{OpenFile, OpenOptions};
use std::io::Write;
use std::rt::{Env, Files};
use std::{fs, io};

// A new file, which must not be there yet.
fn create<R: Files>(rt: &R, name: &[u8]) -> io::Result<R::File> {
    OpenOptions::new()
        .write(true)
        .create_new(true)
        .open(rt, path(name)?)
}

// Writes bytes and waits until they have reached the device.
fn write_whole(file: &mut (impl Write + OpenFile), bytes: &[u8]) -> io::Result<()> {
    file.write_all(bytes)?;
    file.sync_all()
}

fn remove(rt: &impl Files, name: &[u8]) -> io::Result<()> {
    fs::remove_file(rt, path(name)?)
}

fn rename(rt: &impl Files, from: &[u8], to: &[u8]) -> io::Result<()> {
    fs::rename(rt, path(from)?, path(to)?)
}

// Makes a file beside the one that argument i names, and writes it whole. Where that fails there is none, and it is told.
pub fn make_beside(
    rt: &(impl Env + Files + StandardError),
    i: usize,
    letters: &[u8; 4],
    bytes: &[u8],
) -> Result<(), Told> {
    let name = Name::given(rt, i, letters)?;
    let mut file = create(rt, name.bytes()).map_err(|why| fail(rt, name.said(), why))?;
    let written = write_whole(&mut file, bytes);
    drop(file);
    if let Err(why) = written {
        let told = fail(rt, name.said(), why);
        let _ = remove(rt, name.bytes());
        return Err(told);
    }
    Ok(())
}

// Renames the file that was made beside another over it.
pub fn put_in_place(
    rt: &(impl Env + Files + StandardError),
    i: usize,
    letters: &[u8; 4],
) -> Result<(), Told> {
    let made = Name::given(rt, i, letters)?;
    let place = Name::given(rt, i, b"")?;
    rename(rt, made.bytes(), place.bytes()).map_err(|why| fail(rt, place.said(), why))
}

// Takes a file away that was made beside another.
pub fn take_away(rt: &(impl Env + Files), i: usize, letters: &[u8; 4]) {
    if let Some(name) = Name::find(rt, i, letters) {
        let _ = remove(rt, name.bytes());
    }
}

// Replaces the file that argument i names.
pub fn replace(
    rt: &(impl Env + Files + StandardError),
    i: usize,
    bytes: &[u8],
) -> Result<(), Told> {
    make_beside(rt, i, b".new", bytes)?;
    put_in_place(rt, i, b".new").inspect_err(|_| take_away(rt, i, b".new"))
}

// Replaces the files that arguments i and k name, both or neither. The bytes that the second has are made beside it too: where the first
// cannot be put in its place, they are put back.
pub fn replace_both(
    rt: &(impl Env + Files + StandardError),
    i: usize,
    bytes: &[u8],
    k: usize,
    others: &[u8],
    before: &[u8],
) -> Result<(), Told> {
    make_beside(rt, i, b".new", bytes)?;
    make_beside(rt, k, b".new", others).inspect_err(|_| take_away(rt, i, b".new"))?;
    make_beside(rt, k, b".old", before).inspect_err(|_| {
        take_away(rt, i, b".new");
        take_away(rt, k, b".new");
    })?;
    swap(rt, i, k)
}

fn swap(rt: &(impl Env + Files + StandardError), i: usize, k: usize) -> Result<(), Told> {
    put_in_place(rt, k, b".new").inspect_err(|_| {
        take_away(rt, i, b".new");
        take_away(rt, k, b".new");
        take_away(rt, k, b".old");
    })?;
    put_in_place(rt, i, b".new").inspect_err(|_| {
        take_away(rt, i, b".new");
        let _ = put_in_place(rt, k, b".old");
    })?;
    take_away(rt, k, b".old");
    Ok(())
}
