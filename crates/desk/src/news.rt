// desk new FILE CARDS FAULTS [UPPER LOWER].
use crate::tell::{Action, Complaint, Failure};
use crate::{Names, argument_or, files, tell};
use disk::opens::Fields;
use disk::{opens, texts};
use std::io::ErrorKind;
use store::Refusal;

// The longest argument that is read; a longer one is no number.
const FIELD: usize = 16;

// Fails where there is a file of this name, with FILE.new held, or where nobody can tell.
fn must_be_free<'a>(rt: &HostRuntime, names: Names<'a>) -> Result<(), Complaint<'a>> {
    match files::open_read(rt, names.path) {
        Ok(_) => Err(Complaint::Exists(names)),
        Err(e) if e.kind() == ErrorKind::NotFound => Ok(()),
        Err(e) => Err(
            Failure::new(Action::LookFor, names.path, e)
                .holding(names.new)
                .into(),
        ),
    }
}

// A new file of these bytes, by way of FILE.new; then its number is written. Answers that were saved beside an earlier file of this name go.
fn make<'a>(
    rt: &HostRuntime,
    names: Names<'a>,
    bytes: &[u8],
    text: &[u8],
) -> Result<(), Complaint<'a>> {
    let held = files::lock(rt, names)?;
    must_be_free(rt, names)?;
    files::unlink(rt, names.last);
    files::save(rt, held, names, bytes)?;
    if let Err(e) = files::write_all(&mut rt.stdout(), text) {
        tell::warn(rt, Failure::new(Action::WriteNumber, names.path, e));
    }
    Ok(())
}

// The bounds are 4 and 2 where none are given.
#[inline(never)]
pub fn run<'a>(rt: &HostRuntime, names: Names<'a>) -> Result<(), Complaint<'a>> {
    let mut cards = [0u8; FIELD];
    let mut faults = [0u8; FIELD];
    let mut upper = [0u8; FIELD];
    let mut lower = [0u8; FIELD];
    let fields = Fields {
        cards: argument_or(rt, 3, &mut cards, b""),
        faults: argument_or(rt, 4, &mut faults, b""),
        upper: argument_or(rt, 5, &mut upper, b"4"),
        lower: argument_or(rt, 6, &mut lower, b"2"),
    };
    let mut file = disk::file_room();
    let mut text = [0u8; texts::LINE];
    let made = opens::fresh(fields, &mut file, &mut text);
    let said = &text[..made.said];
    match made.file {
        Ok(len) => make(rt, names, &file[..len], said),
        Err(refusal) => {
            let _ = files::write_all(&mut rt.stdout(), said);
            Err(match refusal {
                Refusal::BadBounds => Complaint::BadBounds,
                _ => Complaint::BadLimits,
            })
        }
    }
}
