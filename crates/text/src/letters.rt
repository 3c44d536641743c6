// The bytes of a text, by name; each has the name and the value that it has in the definitions.

// LF ends a line, a space parts fields.
pub const LF: u8 = b'\n';

pub const SPACE: u8 = b' ';

// The first and the last digit.
pub const DIGIT_ZERO: u8 = b'0';

pub const DIGIT_NINE: u8 = b'9';
