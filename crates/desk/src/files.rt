// Files: read, made, written, put in the place of others.
//
// The library opens a name that is text, and no other; one that is not UTF-8 fails as a name that the system refused.
ghost use Rattle.std.specs.Prelude.{IfOk, ◌≡◌};
ghost use Rattle.desk.specs.Counts.{IsPrefixLen};

use crate::tell::{Action, Complaint, Failure};
use crate::{Names, tell};
use disk::names;
use std::fs::{File, OpenOptions};
use std::io::{Error, ErrorKind, Read, Write};
use std::{fs, io};

// Reads to the end of the input or of the room: how many bytes. A failed read is not the end, and an interrupted one counts as failed.
pub fn read_all<R: Read>(input: &mut R, buf: &mut [u8]) -> io::Result<usize>
    ensures { IfOk result (λ len. IsPrefixLen len buf.new) }
{
    let mut len = 0;
    // Kept: what may not change, that an interrupted read fails; std's `read_to_end` would read again, and wants a Vec.
    while len < buf.len() {
        match input.read(&mut buf[len..])? {
            0 => break,
            more => len += more,
        }
    }
    Ok(len)
}

// Writes all of the bytes, or stops at the first write that takes nothing or fails, as one that is interrupted.
pub fn write_all<W: Write>(output: &mut W, bytes: &[u8]) -> io::Result<()> {
    let mut rest = bytes;
    // Kept: what may not change, that an interrupted write fails; std's `write_all` would write again.
    while !rest.is_empty() {
        match output.write(rest)? {
            0 => return Err(Error::from(ErrorKind::WriteZero)),
            taken => rest = &rest[taken..],
        }
    }
    Ok(())
}

// What was tried on a file, with what failed.
pub fn tried<'a, T>(action: Action, name: &'a [u8], done: io::Result<T>) -> Result<T, Failure<'a>>
    ensures { IfOk result (λ value. done ≡ Ok value) }
{
    done.map_err(|error| Failure::new(action, name, error))
}

// A name as text.
fn text_of(path: &[u8]) -> io::Result<&str> {
    match str::from_utf8(path) {
        Ok(text) => Ok(text),
        Err(_) => Err(Error::from(ErrorKind::InvalidFilename)),
    }
}

// Opens a file, or a folder, to be read.
pub fn open_read(rt: &HostRuntime, path: &[u8]) -> io::Result<File> {
    File::open(rt, text_of(path)?)
}

// Makes a file that is not there, to be written.
fn create(rt: &HostRuntime, path: &[u8]) -> io::Result<File> {
    OpenOptions::new()
        .write(true)
        .create_new(true)
        .open(rt, text_of(path)?)
}

// Makes a file to be written, in the place of what is there.
pub fn open_overwrite(rt: &HostRuntime, path: &[u8]) -> io::Result<File> {
    File::create(rt, text_of(path)?)
}

// Removes a file, if it is there.
pub fn unlink(rt: &HostRuntime, path: &[u8]) {
    if let Ok(path) = text_of(path) {
        let _ = fs::remove_file(rt, path);
    }
}

// A file takes another's name.
fn rename(rt: &HostRuntime, from: &[u8], to: &[u8]) -> io::Result<()> {
    fs::rename(rt, text_of(from)?, text_of(to)?)
}

// The bytes of a file that is open, which is closed.
fn read_open<'a>(mut open: File, path: &'a [u8], file: &mut [u8]) -> Result<usize, Failure<'a>>
    ensures { IfOk result (λ len. IsPrefixLen len file.new) }
{
    tried(Action::Read, path, read_all(&mut open, file))
}

// The bytes of a file.
pub fn load<'a>(rt: &HostRuntime, path: &'a [u8], file: &mut [u8]) -> Result<usize, Failure<'a>>
    ensures { IfOk result (λ len. IsPrefixLen len file.new) }
{
    let open = tried(Action::Open, path, open_read(rt, path))?;
    read_open(open, path, file)
}

// The bytes of the saved answers beside a file.
pub fn load_last<'a>(
    rt: &HostRuntime,
    names: Names<'a>,
    bytes: &mut [u8],
) -> Result<usize, Complaint<'a>>
    ensures { IfOk result (λ len. IsPrefixLen len bytes.new) }
{
    match open_read(rt, names.last) {
        Ok(open) => Ok(read_open(open, names.last, bytes)?),
        Err(e) if e.kind() == ErrorKind::NotFound => Err(Complaint::NoAnswers(names.path)),
        Err(e) => Err(Failure::new(Action::Open, names.last, e).into()),
    }
}

// The folder of a file, synced, so that a new name in it lasts.
pub fn sync_folder(rt: &HostRuntime, path: &[u8]) -> io::Result<()> {
    let folder = match names::folder_end(path) {
        0 => open_read(rt, b"."),
        end => open_read(rt, &path[..end]),
    };
    folder?.sync_all()
}

// FILE.new, made for this desk alone.
pub fn lock<'a>(rt: &HostRuntime, names: Names<'a>) -> Result<File, Complaint<'a>> {
    match create(rt, names.new) {
        Ok(held) => Ok(held),
        Err(e) if e.kind() == ErrorKind::AlreadyExists => Err(Complaint::Taken(names)),
        Err(e) => Err(Failure::new(Action::Make, names.new, e).into()),
    }
}

// FILE.new given up.
pub fn unlock(rt: &HostRuntime, held: File, name: &[u8]) {
    drop(held);
    unlink(rt, name);
}

// Bytes behind what is written.
pub fn put<'a>(file: &mut File, name: &'a [u8], bytes: &[u8]) -> Result<(), Failure<'a>> {
    tried(Action::Write, name, write_all(file, bytes))
}

// A file that is written is synced and closed.
pub fn finish<'a>(file: File, name: &'a [u8]) -> Result<(), Failure<'a>> {
    tried(Action::Sync, name, file.sync_all())
}

// A file takes another's name.
pub fn place<'a>(rt: &HostRuntime, name: &'a [u8], path: &[u8]) -> Result<(), Failure<'a>> {
    tried(Action::Rename, name, rename(rt, name, path))
}

// The bytes into FILE.new, which is whole, synced and closed then, and FILE.new to FILE. Where that fails FILE is as it was.
pub fn save<'a>(
    rt: &HostRuntime,
    mut held: File,
    names: Names<'a>,
    bytes: &[u8],
) -> Result<(), Failure<'a>> {
    put(&mut held, names.new, bytes)?;
    finish(held, names.new)?;
    place(rt, names.new, names.path)?;
    if let Err(e) = sync_folder(rt, names.path) {
        tell::warn(rt, Failure::new(Action::SyncFolder, names.path, e));
    }
    Ok(())
}
