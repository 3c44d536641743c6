// What is said on standard error: sentences that begin `desk: `.
use crate::{Names, files};
use std::fmt;
use std::fmt::Write;
use std::io::{Error, ErrorKind, Stderr};

// The system's numbers of errors that no kind of error tells from others.
// Kept: what may not change, the sentences: one kind holds EACCES and EPERM, one EIO, EBADF and others, one ENAMETOOLONG and a name that is no text.
const EIO: i32 = 5;

const EBADF: i32 = 9;

const EACCES: i32 = 13;

const ENAMETOOLONG: i32 = 36;

// What was tried on a file, or for one.
#[derive(Clone, Copy, PartialEq, Eq)]
pub enum Action {
    Read,
    Open,
    LookFor,
    Make,
    Write,
    Sync,
    Rename,
    SyncFolder,
    WriteAnswers,
    WriteRefusal,
    WriteNumber,
    WriteAsked,
}

impl fmt::Display for Action {
    fn fmt<W: Write>(&self, f: &mut fmt::Formatter<W>) -> fmt::Result {
        f.write_str(match self {
            Action::Read => "read",
            Action::Open => "open",
            Action::LookFor => "look for",
            Action::Make => "make",
            Action::Write => "write",
            Action::Sync => "sync",
            Action::Rename => "rename",
            Action::SyncFolder => "sync the folder of",
            Action::WriteAnswers => "write the answers for",
            Action::WriteRefusal => "write the answer for",
            Action::WriteNumber => "write the number for",
            Action::WriteAsked => "write what was asked of",
        })
    }
}

// What to do after a failure.
#[derive(Clone, Copy)]
pub enum Remedy {
    TryAgain,
    SendAgain,
}

impl fmt::Display for Remedy {
    fn fmt<W: Write>(&self, f: &mut fmt::Formatter<W>) -> fmt::Result {
        f.write_str(match self {
            Remedy::TryAgain => "try again",
            Remedy::SendAgain => "send the job again",
        })
    }
}

// What the system says of a call that failed.
#[derive(Clone, Copy)]
struct Reason(Error);

impl fmt::Display for Reason {
    fn fmt<W: Write>(&self, f: &mut fmt::Formatter<W>) -> fmt::Result {
        f.write_str(match self.0.kind() {
            ErrorKind::NotFound => "No such file or directory",
            ErrorKind::IsADirectory => "Is a directory",
            ErrorKind::StorageFull => "No space left on device",
            ErrorKind::FileTooLarge => "File too large",
            ErrorKind::NotADirectory => "Not a directory",
            ErrorKind::ReadOnlyFilesystem => "Read-only file system",
            ErrorKind::BrokenPipe => "Broken pipe",
            _ => reason_by_number(self.0),
        })
    }
}

fn reason_by_number(error: Error) -> &'static str {
    match error.raw_os_error() {
        Some(EIO) => "Input/output error",
        Some(EBADF) => "Bad file descriptor",
        Some(EACCES) => "Permission denied",
        Some(ENAMETOOLONG) => "File name too long",
        _ => "the system refused it",
    }
}

// A call that failed, and the name of the file that it was for.
#[derive(Clone, Copy)]
pub struct Failure<'a> {
    action: Action,
    name: &'a [u8],
    error: Error,
    held: Option<&'a [u8]>,
}

impl<'a> Failure<'a> {
    pub fn new(action: Action, name: &'a [u8], error: Error) -> Failure<'a> {
        Failure {
            action,
            name,
            error,
            held: None,
        }
    }

    // The same where a file is held that goes once the failure is said.
    pub fn holding(self, held: &'a [u8]) -> Failure<'a> {
        Failure {
            held: Some(held),
            ..self
        }
    }

    fn advice(&self) -> &'static str {
        match self.error.kind() {
            ErrorKind::StorageFull | ErrorKind::FileTooLarge => "make room",
            _ => "see to that",
        }
    }

    // What is in the way once it is said: a file that is not whole, and one that is held.
    pub fn clear_up(&self, rt: &HostRuntime) {
        if let Action::Write | Action::Sync | Action::Rename = self.action {
            files::unlink(rt, self.name);
        }
        if let Some(held) = self.held {
            files::unlink(rt, held);
        }
    }
}

// Why a command ends, or what has to be said of what it did.
#[derive(Clone, Copy)]
pub enum Complaint<'a> {
    // Nothing was done.
    Failed(Failure<'a>),

    // FILE.new is there; FILE is there, and FILE.new is held.
    Taken(Names<'a>),
    Exists(Names<'a>),

    // FILE is no sound store; no store has its length.
    NotSound(&'a [u8]),
    NoStore(&'a [u8]),

    // There are no saved answers; they are those of another state of the file.
    NoAnswers(&'a [u8]),
    OtherAnswers(&'a [u8]),

    // The name, and the job, are too long; the job has stopped.
    LongName,
    LongJob,
    Stopped,

    // The limits, and the bounds, of a new store are out of range.
    BadLimits,
    BadBounds,

    NoReport,
}

impl<'a> From<Failure<'a>> for Complaint<'a> {
    fn from(failure: Failure<'a>) -> Complaint<'a> {
        Complaint::Failed(failure)
    }
}

impl<'a> Complaint<'a> {
    // Of a file that is no sound store: so many bytes were read of it.
    pub fn no_store(path: &'a [u8], len: usize) -> Complaint<'a> {
        if disk::sized(len) {
            Complaint::NotSound(path)
        } else {
            Complaint::NoStore(path)
        }
    }
}

// Standard error. Where it can't be written, nothing is said.
#[derive(Drop)]
struct Voice(Stderr);

impl Voice {
    // A name is bytes, which may be no text.
    fn name(&mut self, name: &[u8]) {
        let _ = files::write_all(&mut self.0, name);
    }
}

impl Write for Voice {
    fn write_str(&mut self, text: &str) -> fmt::Result {
        self.name(text.as_bytes());
        Ok(())
    }
}

impl Voice {
    fn text(&mut self, text: &str) {
        self.name(text.as_bytes());
    }

    // Which call failed on which file, and why.
    fn failure(&mut self, failure: Failure) {
        let action = failure.action;
        let reason = Reason(failure.error);
        let _ = write!(self, "cannot {action} ");
        self.name(failure.name);
        let _ = write!(self, ": {reason}");
    }

    // A sentence that begins with a name.
    fn of(&mut self, name: &[u8], rest: &str) {
        self.text("desk: ");
        self.name(name);
        self.text(rest);
    }

    fn taken(&mut self, names: Names) {
        self.of(
            names.new,
            " is there: another desk is at work, or one was cut off. Nothing was done. If none is at work, remove ",
        );
        self.name(names.new);
        self.text("; desk last ");
        self.name(names.path);
        self.text(" shows what was answered last\n");
    }

    fn other_answers(&mut self, path: &[u8]) {
        self.text("desk: the saved answers are not those of ");
        self.name(path);
        self.text(" as it stands: the job they belong to was not saved, or ");
        self.name(path);
        self.text(" was changed otherwise\n");
    }

    fn no_answers(&mut self, path: &[u8]) {
        self.text("desk: there are no saved answers for ");
        self.name(path);
        self.text("\n");
    }
}

impl<'a> Complaint<'a> {
    // Says it, and what to do then.
    pub fn say(&self, rt: &HostRuntime, remedy: Remedy) {
        let mut voice = Voice(rt.stderr());
        match *self {
            Complaint::Failed(failure) => {
                let advice = failure.advice();
                voice.text("desk: ");
                voice.failure(failure);
                let _ = write!(voice, ". Nothing was done; {advice} and {remedy}\n");
            }
            Complaint::Taken(names) => voice.taken(names),
            Complaint::Exists(names) => voice.of(
                names.path,
                " is there already. Nothing was done\n",
            ),
            Complaint::NotSound(path) => voice.of(
                path,
                " is not a sound store. Nothing was done\n",
            ),
            Complaint::NoStore(path) => voice.of(
                path,
                " is no store: no store has this length. Nothing was done\n",
            ),
            Complaint::NoAnswers(path) => voice.no_answers(path),
            Complaint::OtherAnswers(path) => voice.other_answers(path),
            Complaint::LongName => voice.text(
                "desk: the name of the file is too long. Nothing was done\n",
            ),
            Complaint::LongJob => voice.text(
                "desk: the job has more than 16384 bytes. Nothing was done\n",
            ),
            Complaint::Stopped => voice.text(
                "desk: done, but the job has stopped before a line whose answer did not fit; send the rest from that line on\n",
            ),
            Complaint::BadLimits => voice.text(
                "desk: a store has 1 to 1024 cards and 1 to 2048 faults. Nothing was done\n",
            ),
            Complaint::BadBounds => voice.text(
                "desk: the upper bound is 2 to 10, the lower 1 to half of it. Nothing was done\n",
            ),
            Complaint::NoReport => voice.text(
                "desk: the report could not be made. Nothing was done\n",
            ),
        }
    }

    // What is in the way once it is said goes.
    pub fn clear_up(&self, rt: &HostRuntime) {
        match self {
            Complaint::Failed(failure) => failure.clear_up(rt),
            Complaint::Exists(names) => files::unlink(rt, names.new),
            _ => {}
        }
    }
}

// Says which call failed after all else was done.
pub fn warn(rt: &HostRuntime, failure: Failure) {
    let mut voice = Voice(rt.stderr());
    voice.text("desk: done, but ");
    voice.failure(failure);
    voice.text("\n");
}
