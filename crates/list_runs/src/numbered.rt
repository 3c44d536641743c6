// Cards by number, and days and codes by steps.
ghost use Rattle.std.specs.Prelude.{◌^◌, ◌<◌, ◌≤◌};

use script::numbers::around;
use script::serials::Serial;

fn digit(n: u32) -> u8 {
    b'0' + (n % 10) as u8
}

// The card of a number: four digits and up to twelve hyphens.
pub fn serial(n: u32) -> Serial {
    let mut field = [b'-'; 16];
    field[0] = digit(n / 1000);
    field[1] = digit(n / 100);
    field[2] = digit(n / 10);
    field[3] = digit(n);
    Serial::new(&field[..4 + (n % 13) as usize], &[])
}

// How many cards are numbered, and the highest day and code.
const CARDS: u32 = 1024;

const MOST_DAY: u32 = 65535;

const MOST_CODE: u32 = 9999;

// The number a step on. Cards are numbered from 0, days and codes from 1.
pub fn next_card(n: u32, step: u32) -> u32 {
    around::<CARDS>(n, step)
}

// A day or a code a step on.
fn next_of<const MOST: u32>(n: u32, step: u32) -> u32
    requires { (0 < MOST) × (MOST ≤ 2 ^ 31) }
{
    around::<MOST>(n % MOST + MOST - 1, step) + 1
}

pub fn next_day(day: u32, step: u32) -> u32 {
    next_of::<MOST_DAY>(day, step)
}

pub fn next_code(code: u32, step: u32) -> u32 {
    next_of::<MOST_CODE>(code, step)
}
