// Serials and faults: which are valid, and a serial's sixteen bytes packed into and out of four words.
ghost use Rattle.std.specs.Prelude.{◌≡◌, eqb};
ghost use Rattle.model.specs.Lists.{all};
ghost use Rattle.model.specs.Serial.{allowed, valid_serial, valid_fault};
ghost use Rattle.reads.specs.Cells.{packed_all, unpacked_all};

use crate::layout;

// The allowed bytes stand between the hyphen and Z. Bit k of ALLOWED is set where byte HYPHEN + k is one of them: the hyphen itself, the
// digits 48 to 57, the upper-case letters 65 to 90.
const HYPHEN: u8 = 45;

const LAST_LETTER: u8 = 90;

const ALLOWED: u64 = 70368743137273;

// A digit, an upper-case letter or a hyphen, by one bit: a processor cannot foresee which of the three comes next, and a branch for each
// would cost it a wrong guess at every third byte.
pub fn is_allowed(b: u8) -> bool
    ensures { result ≡ allowed b }
{
    // Kept: tried `(HYPHEN..=LAST_LETTER).contains(&b)`, an instruction more for each byte: a report of full stores took 1.033 of before.
    if b < HYPHEN {
        return false;
    }
    if LAST_LETTER < b {
        return false;
    }
    (ALLOWED >> (b - HYPHEN)) % 2 == 1
}

// A day, 1 to 65,535, and a code, 1 to 9,999.
#[tactic(auto, unfolding(model::specs::Serial::valid_fault))]
pub fn valid_fault(day: u32, code: u32) -> bool
    ensures { result ≡ valid_fault day code }
{
    layout::within(1, 65535, day) && layout::within(1, 9999, code)
}

// Whether all bytes are allowed.
fn all_allowed(bytes: &[u8]) -> bool
    ensures { result ≡ all allowed bytes.now }
{
    bytes.iter().all(|&b| is_allowed(b))
}

// Whether all bytes are zero.
fn all_zero(bytes: &[u8]) -> bool
    ensures { result ≡ all (eqb 0) bytes.now }
{
    bytes.iter().all(|&b| b == 0)
}

// Sixteen bytes and a length, as a serial travels: allowed up to the length, zero from there on.
// Kept: the rules of the product fix that form, sixteen bytes by value with their length beside them.
pub fn valid_serial(serial: [u8; 16], len: usize) -> bool
    ensures { result ≡ valid_serial serial len }
{
    (1..=rules::SERIAL).contains(&len) && all_allowed(&serial[..len]) && all_zero(&serial[len..])
}

// The four words of a serial's sixteen bytes, the first byte of each highest.
pub fn pack(s: [u8; 16]) -> [u32; layout::SERIAL_WORDS]
    ensures { result ≡ packed_all s }
{
    [
        u32::from_be_bytes([s[0], s[1], s[2], s[3]]),
        u32::from_be_bytes([s[4], s[5], s[6], s[7]]),
        u32::from_be_bytes([s[8], s[9], s[10], s[11]]),
        u32::from_be_bytes([s[12], s[13], s[14], s[15]]),
    ]
}

// The sixteen bytes of four words.
pub fn unpack(a: u32, b: u32, c: u32, d: u32) -> [u8; 16]
    ensures { result ≡ unpacked_all a b c d }
{
    let mut bytes = [0u8; 16];
    bytes[..4].copy_from_slice(&a.to_be_bytes());
    bytes[4..8].copy_from_slice(&b.to_be_bytes());
    bytes[8..12].copy_from_slice(&c.to_be_bytes());
    bytes[12..].copy_from_slice(&d.to_be_bytes());
    bytes
}
