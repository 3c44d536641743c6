// desk job FILE. The order of calls: standard input to its end; FILE.new made; FILE read; and where a word has changed FILE.last.new written, synced,
// closed, renamed to FILE.last, the folder synced; FILE.new written, synced, closed, renamed to FILE, the folder synced; the answers.
use crate::files::tried;
use crate::tell::{Action, Complaint, Failure};
use crate::{Names, files, tell};
use disk::lasts;
use std::fs::File;
use store::Refusal;

// The bytes of a job's text that are read; a longer one is too long, and the rest of it makes no difference.
const TEXT: usize = 65536;

// The answers saved in FILE.last, by way of FILE.last.new, which is whole, synced and closed then.
fn save_last<'a>(
    rt: &HostRuntime,
    names: Names<'a>,
    file: &[u8],
    answers: &[u8],
) -> Result<(), Failure<'a>> {
    let mut open = tried(
        Action::Make,
        names.spare,
        files::open_overwrite(rt, names.spare),
    )?;
    files::put(&mut open, names.spare, &lasts::head(file))?;
    files::put(&mut open, names.spare, file)?;
    files::put(&mut open, names.spare, answers)?;
    files::finish(open, names.spare)?;
    files::place(rt, names.spare, names.last)?;
    tried(
        Action::SyncFolder,
        names.path,
        files::sync_folder(rt, names.path),
    )
}

// The numbers of a job that is refused, or has stopped.
const NOT_SOUND: u32 = Refusal::NotSound as u32;

const SHORT_ROOM: u32 = Refusal::ShortRoom as u32;

const LONG_TEXT: u32 = Refusal::LongText as u32;

// What a job's number means, where it is not 0; the file had so many bytes.
fn explain<'a>(path: &'a [u8], len: usize, number: u32) -> Result<(), Complaint<'a>> {
    match number {
        0 => Ok(()),
        NOT_SOUND => Err(Complaint::no_store(path, len)),
        LONG_TEXT => Err(Complaint::LongJob),
        _ => Err(Complaint::Stopped),
    }
}

// The answers, once all is saved.
fn answer<'a>(
    rt: &HostRuntime,
    path: &'a [u8],
    len: usize,
    answers: &[u8],
    number: u32,
) -> Result<(), Complaint<'a>> {
    match files::write_all(&mut rt.stdout(), answers) {
        Ok(()) => explain(path, len, number),
        Err(e) if number == 0 || number == SHORT_ROOM => {
            tell::warn(rt, Failure::new(Action::WriteAnswers, path, e));
            Ok(())
        }
        Err(e) => Err(Failure::new(Action::WriteRefusal, path, e).into()),
    }
}

// A job on the bytes of a file, with FILE.new held: what it leaves, where it has changed, in FILE.last and then in FILE; the answers.
fn serve<'a>(
    rt: &HostRuntime,
    held: File,
    names: Names<'a>,
    text: &[u8],
    file: &mut [u8],
) -> Result<(), Complaint<'a>> {
    let mut out = disk::output();
    let served = disk::serve(file, text, &mut out);
    let answers = &out[..served.len];
    if served.save {
        if let Err(failure) = save_last(rt, names, file, answers) {
            return Err(failure.holding(names.new).into());
        }
        files::save(rt, held, names, file)?;
    } else {
        files::unlock(rt, held, names.new);
    }
    answer(rt, names.path, file.len(), answers, served.number)
}

// The input first, so that FILE.new is there no longer than it must. Of a text that is longer than the room the rest makes no difference.
#[inline(never)]
pub fn run<'a>(rt: &HostRuntime, names: Names<'a>) -> Result<(), Complaint<'a>> {
    let mut text = [0u8; TEXT];
    let len = tried(
        Action::Read,
        b"standard input",
        files::read_all(&mut rt.stdin(), &mut text),
    )?;
    let held = files::lock(rt, names)?;
    let mut file = disk::file_room();
    match files::load(rt, names.path, &mut file) {
        Ok(size) => serve(rt, held, names, &text[..len], &mut file[..size]),
        Err(failure) => Err(failure.holding(names.new).into()),
    }
}
