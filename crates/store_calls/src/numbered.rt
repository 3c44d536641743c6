// Serials by number, and many calls for them.
use script::calls::{Call, Kind};
use script::serials::Serial;

// `AZ` for an even number and `B9` for an odd one: their codes are equal, 33 times the first byte and the second.
fn high(n: u32) -> u8 {
    b'A' + (n % 2) as u8
}

fn low(n: u32) -> u8 {
    b'Z' - 33 * (n % 2) as u8
}

fn letter(n: u32) -> u8 {
    b'A' + (n % 26) as u8
}

// Three pairs for the number's lowest bits, and two letters for the rest of it: eight serials in a row have one code. The letters stand
// right behind the pairs, or at the end of the sixteen bytes.
fn serial(n: u32) -> Serial {
    let m = n / 8;
    let len = if m % 2 == 0 { 8 } else { 16 };
    let mut field = [b'-'; 16];
    field[0] = high(n);
    field[1] = low(n);
    field[2] = high(n / 2);
    field[3] = low(n / 2);
    field[4] = high(n / 4);
    field[5] = low(n / 4);
    field[len - 2] = letter(m);
    field[len - 1] = letter(m / 26 * 5);
    Serial::new(&field[..len], &[])
}

// Call k of many, for serial n.
pub fn call(kind: Kind, n: u32, k: u32) -> Call {
    Call {
        kind,
        serial: serial(n),
        day: k % 65535 + 1,
        code: n % 9999 + 1,
    }
}

// After which of many calls a line is printed, beside the last one: after each 64, or after one that changed the number of buckets.
#[derive(Clone, Copy)]
pub enum Told {
    By64,
    ByChange,
}

impl Told {
    pub fn is_due(self, calls: u32, changed: bool) -> bool {
        match self {
            Told::By64 => calls % 64 == 0,
            Told::ByChange => changed,
        }
    }
}
