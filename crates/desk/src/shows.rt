// desk check FILE, desk report FILE.., desk last FILE: files are only read.
ghost use Rattle.std.specs.Prelude.{◌≡◌, ◌≤◌, length, IfOk, IfSome};
ghost use Rattle.disk.specs.Desk.{most_bytes};

use crate::files::tried;
use crate::tell::{Action, Complaint, Failure, Remedy};
use crate::{Names, argument, files};
use disk::{lasts, looks, names, runs};

// Writes what was asked of a file.
fn show<'a>(rt: &HostRuntime, text: &[u8], path: &'a [u8]) -> Result<(), Failure<'a>> {
    tried(
        Action::WriteAsked,
        path,
        files::write_all(&mut rt.stdout(), text),
    )
}

// desk check FILE. That the file is no store is said even where the text can't be written.
#[inline(never)]
pub fn run_check<'a>(rt: &HostRuntime, path: &'a [u8]) -> Result<(), Complaint<'a>> {
    let mut file = disk::file_room();
    let len = files::load(rt, path, &mut file)?;
    let mut text = [0u8; looks::TEXT];
    let looked = looks::look(&file[..len], &mut text);
    let shown = show(rt, &text[..looked.len], path);
    if looked.sound {
        return Ok(shown?);
    }
    if let Err(failure) = shown {
        Complaint::Failed(failure).say(rt, Remedy::TryAgain);
    }
    Err(Complaint::no_store(path, len))
}

// The saved answers, where they belong to the file.
fn show_last<'a>(
    rt: &HostRuntime,
    path: &'a [u8],
    file: &[u8],
    last: &[u8],
) -> Result<(), Complaint<'a>> {
    if !lasts::belongs(file, last) {
        return Err(Complaint::OtherAnswers(path));
    }
    let start = lasts::answers_at(file, last);
    show(rt, &last[start..], path)?;
    Ok(())
}

// desk last FILE: the saved answers in FILE.last, against the file's bytes.
#[inline(never)]
pub fn run_last<'a>(rt: &HostRuntime, names: Names<'a>) -> Result<(), Complaint<'a>> {
    let mut file = disk::file_room();
    let len = files::load(rt, names.path, &mut file)?;
    let mut last = lasts::room();
    let last_len = files::load_last(rt, names, &mut last)?;
    show_last(rt, names.path, &file[..len], &last[..last_len])
}

// A file of a sound store: its length.
fn load_sound<'a>(rt: &HostRuntime, path: &'a [u8], room: &mut [u8]) -> Result<usize, Complaint<'a>>
    ensures { IfOk result (λ len. (len ≤ length room.new) × (len ≤ most_bytes)) }
{
    let len = files::load(rt, path, room)?;
    let mut text = [0u8; looks::TEXT];
    if !looks::look(&room[..len], &mut text).sound {
        return Err(Complaint::no_store(path, len));
    }
    Ok(len)
}

// One more file of a report, behind the others: its length, or none where it is said why not, since its name is known here alone.
fn add_file(rt: &HostRuntime, i: usize, room: &mut [u8]) -> Option<usize>
    ensures { IfSome result (λ len. (len ≤ length room.new) × (len ≤ most_bytes)) }
{
    let mut path = [0u8; names::PATH];
    let n = argument(rt, i, &mut path);
    match load_sound(rt, &path[..n], room) {
        Ok(len) => Some(len),
        Err(complaint) => {
            complaint.say(rt, Remedy::TryAgain);
            None
        }
    }
}

// All files of a report, one behind another, and their sizes: how many bytes they have.
fn gather(rt: &HostRuntime, room: &mut [u8], sizes: &mut [u32]) -> Option<usize>
    ensures { IfSome result (λ len. len ≤ length room.new) }
{
    let mut at = 0;
    for (i, size) in sizes.iter_mut().enumerate() {
        let len = add_file(rt, i + 2, &mut room[at..])?;
        *size = len as u32;
        at += len;
    }
    Some(at)
}

// The report over these files.
fn report(rt: &HostRuntime, bytes: &[u8], sizes: &[u32]) -> Result<(), Complaint<'static>> {
    let mut out = runs::output();
    match runs::report_files(bytes, sizes, &mut out) {
        Ok(len) => Ok(show(rt, &out[..len as usize], b"the files")?),
        Err(_) => Err(Complaint::NoReport),
    }
}

// desk report FILE.., so many of them, one to eight
#[inline(never)]
pub fn run_report(rt: &HostRuntime, count: usize) -> Result<(), Complaint<'static>>
    requires { count ≤ 8 }
{
    let mut room = runs::files_room();
    let mut sizes = [0u32; runs::FILES];
    match gather(rt, &mut room, &mut sizes[..count]) {
        Some(len) => report(rt, &room[..len], &sizes[..count]),
        None => Ok(()),
    }
}
