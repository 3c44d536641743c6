// The bytes of a line, by name; each has the name and the value that it has in the definitions.

// A colon parts day and code.
pub const COLON: u8 = b':';

// E enters, F files, S shows, W withdraws.
pub const LETTER_E: u8 = b'E';

pub const LETTER_F: u8 = b'F';

pub const LETTER_S: u8 = b'S';

pub const LETTER_W: u8 = b'W';
