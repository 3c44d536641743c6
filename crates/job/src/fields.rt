// A line taken apart into its fields.
ghost use Rattle.std.specs.Prelude.{◌≡◌, [], ◌∷◌};
ghost use Rattle.model.specs.Text.{space, fields};
ghost use Rattle.model.specs.Job.{two, from_fields, padded, line_of};
ghost use Rattle.job.specs.Told.{held, Told};

use super::letters;
use rules::SERIAL;
use text::letters::SPACE;
use text::numbers;
use text::pieces::split_once;

// A serial as it travels: sixteen bytes, the unused ones zero, and the length of its field.
#[derive(Clone, Copy, Debug, PartialEq, Eq)]
pub struct Serial {
    pub bytes: [u8; SERIAL],
    pub len: usize,
}

// A fault to be filed.
#[derive(Clone, Copy, Debug, PartialEq, Eq)]
pub struct Fault {
    pub day: u32,
    pub code: u32,
}

// What a line asks for.
#[derive(Clone, Copy, Debug, PartialEq, Eq)]
pub enum Request {
    Enter(Serial),
    Withdraw(Serial),
    File(Serial, Fault),
    Show(Serial),
}

// The longest line without its LF.
const LONGEST_LINE: usize = 64;

// The field as a serial travels: sixteen bytes, the unused ones zero. Of a longer field the first sixteen.
pub fn sixteen(field: &[u8]) -> [u8; 16]
    ensures { result ≡ padded field.now }
{
    let mut bytes = [0u8; 16];
    let end = field.len().min(SERIAL);
    bytes[..end].copy_from_slice(&field[..end]);
    bytes
}

impl<'a> From<&'a [u8]> for Serial {
    ghost from_gives = { λ field serial. serial ≡ held field.now };

    fn from(field: &'a [u8]) -> Serial {
        Serial {
            bytes: sixteen(field),
            len: field.len(),
        }
    }
}

// A line of two fields: E, S or W and a serial.
fn serial_line(op: u8, serial: &[u8]) -> Option<Request>
    ensures { Told (two (op ∷ []) serial.now) result }
{
    let serial = Serial::from(serial);
    match op {
        letters::LETTER_E => Some(Request::Enter(serial)),
        letters::LETTER_W => Some(Request::Withdraw(serial)),
        letters::LETTER_S => Some(Request::Show(serial)),
        _ => None,
    }
}

// A longer line, with what stands behind its serial: F, a serial, a day and a code.
fn fault_line(op: u8, serial: &[u8], rest: &[u8]) -> Option<Request>
    ensures { Told (from_fields ((op ∷ []) ∷ serial.now ∷ fields space rest.now)) result }
{
    let (day, code) = split_once(rest, SPACE)?;
    if op != letters::LETTER_F {
        return None;
    }
    let day = numbers::parse(day)?;
    let code = numbers::parse(code)?;
    Some(Request::File(Serial::from(serial), Fault { day, code }))
}

// What a line without its LF asks for; none if it is not well formed.
pub fn parse(line: &[u8]) -> Option<Request>
    ensures { Told (line_of line.now) result }
{
    if line.len() > LONGEST_LINE {
        return None;
    }
    let (op, rest) = split_once(line, SPACE)?;
    if op.len() != 1 {
        return None;
    }
    let Some((serial, rest)) = split_once(rest, SPACE) else {
        return serial_line(op[0], rest);
    };
    fault_line(op[0], serial, rest)
}
