// The program: keeps stores in files. What it writes and saves is what `disk` makes of what it read; here is only reading and writing. A program has
// no status of its own. It writes to standard error where something is to be said and nowhere else; the script `desk` gives the status by that.
#![tactic(auto)]

ghost use Rattle.desk.specs.Counts.{IsPrefixLen};
ghost use Rattle.std.specs.Prelude.{◌≡◌, ◌≤◌, length, Some};

mod files; // files.rt: files read, made, written and renamed
mod jobs; // jobs.rt: desk job
mod news; // news.rt: desk new
mod shows; // shows.rt: desk check, report and last
mod tell; // tell.rt: what is said on standard error

use crate::tell::{Complaint, Remedy};
use disk::names;
use std::env::{Env, FillError};
use std::io::Write;

// So many words are counted, and no more: one more than those of a report over eight files.
const MOST: usize = 11;

const USAGE: [&str; 5] = [
    "desk new FILE CARDS FAULTS [UPPER LOWER]   makes a new store in FILE (bounds 4 and 2 if not given)\n",
    "desk job FILE < JOB                        runs a job on the store, saves it, writes the answers\n",
    "desk check FILE                            says whether FILE is a sound store, and what it holds\n",
    "desk report FILE...                        faults by code over 1 to 8 stores\n",
    "desk last FILE                             the answers of the last job that was saved\n",
];

fn usage<W: Write>(out: &mut W) {
    for line in USAGE {
        let _ = files::write_all(out, line.as_bytes());
    }
}

// The names of FILE, FILE.new, FILE.last and FILE.last.new.
#[derive(Clone, Copy)]
pub struct Names<'a> {
    pub path: &'a [u8],
    pub new: &'a [u8],
    pub last: &'a [u8],
    pub spare: &'a [u8],
}

// What the words of the command line ask for.
#[derive(Clone, Copy, PartialEq, Eq)]
enum Command {
    New,
    Job,
    Check,
    Report,
    Last,
}

impl Command {
    // The command of this name, where it takes so many words, the program's own name and its own among them.
    fn of(name: &[u8], count: usize) -> Option<Command>
        ensures few { result ≡ Some Command.Report → (3 ≤ count) × (count ≤ 10) }
    {
        match name {
            b"new" if count == 5 || count == 7 => Some(Command::New),
            b"job" if count == 3 => Some(Command::Job),
            b"check" if count == 3 => Some(Command::Check),
            b"report" if 3 <= count && count <= 10 => Some(Command::Report),
            b"last" if count == 3 => Some(Command::Last),
            _ => None,
        }
    }

    // What to do where it has failed.
    fn remedy(self) -> Remedy {
        match self {
            Command::Job => Remedy::SendAgain,
            _ => Remedy::TryAgain,
        }
    }

    // Does what is asked with so many words. Each command is out of line, so that a run takes the stack of its own command alone.
    fn run<'a>(self, rt: &HostRuntime, count: usize, names: Names<'a>) -> Result<(), Complaint<'a>>
        requires { self ≡ Command.Report → (3 ≤ count) × (count ≤ 10) }
    {
        match self {
            Command::New => news::run(rt, names),
            Command::Job => jobs::run(rt, names),
            Command::Check => shows::run_check(rt, names.path),
            Command::Report => shows::run_report(rt, count - 2),
            Command::Last => shows::run_last(rt, names),
        }
    }
}

// A command, and what is to be said where it ends badly.
fn run(rt: &HostRuntime, name: &[u8], count: usize, names: Names) {
    let Some(command) = Command::of(name, count) else {
        usage(&mut rt.stderr());
        return;
    };
    if let Err(complaint) = command.run(rt, count, names) {
        complaint.say(rt, command.remedy());
        complaint.clear_up(rt);
    }
}

// The same with the names beside a file's.
fn run_beside(rt: &HostRuntime, name: &[u8], count: usize, path: &[u8])
    requires { length path.now ≤ 4096 }
{
    let mut new = names::buffer();
    let a = names::beside(path, b".new", &mut new);
    let mut last = names::buffer();
    let b = names::beside(path, b".last", &mut last);
    let mut spare = names::buffer();
    let c = names::beside(path, b".last.new", &mut spare);
    let names = Names {
        path,
        new: &new[..a],
        last: &last[..b],
        spare: &spare[..c],
    };
    run(rt, name, count, names);
}

// The bytes of an argument, at the front: how many, or 0 where there is none or it is longer than the room.
fn argument(rt: &HostRuntime, i: usize, room: &mut [u8]) -> usize
    ensures { IsPrefixLen result room.new }
{
    rt.arg(i, room).unwrap_or(0)
}

// The bytes of an argument, or others where there is none; no bytes where it is longer than the room.
fn argument_or<'a>(rt: &HostRuntime, i: usize, room: &'a mut [u8], other: &'a [u8]) -> &'a [u8] {
    match rt.arg(i, room) {
        Ok(n) => &room[..n],
        Err(FillError::NotPresent) => other,
        Err(_) => &[],
    }
}

fn is_there(rt: &HostRuntime, i: usize) -> bool {
    !matches!(rt.arg(i, &mut [0u8; 1]), Err(FillError::NotPresent))
}

// How many words the command line has, the program's own name among them; of more than `MOST`, that many.
fn count_words(rt: &HostRuntime) -> usize {
    (0..MOST).find(|i| !is_there(rt, *i)).unwrap_or(MOST)
}

fn main(rt: HostRuntime) {
    let count = count_words(&rt);
    if count < 2 {
        usage(&mut rt.stdout());
        return;
    }
    if count < 3 {
        usage(&mut rt.stderr());
        return;
    }
    let mut name = [0u8; 8];
    let k = argument(&rt, 1, &mut name);
    let mut path = [0u8; names::PATH];
    match rt.arg(2, &mut path) {
        Ok(n) => run_beside(&rt, &name[..k], count, &path[..n]),
        Err(_) => Complaint::LongName.say(&rt, Remedy::TryAgain),
    }
}
