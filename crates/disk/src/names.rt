// The names beside a file's: its own with an ending, and the folder that it stands in.
ghost use Rattle.std.specs.Prelude.{◌≡◌, ◌+◌, ◌≤◌, length};
ghost use Rattle.disk.specs.Names.{Folder, Named};

use text::sink::{Writer, put_text};

// The bytes of the longest path with its ending zero, and of the longest name beside it.
pub const PATH: usize = 4096;

pub const LONGER: usize = PATH + 9;

// Room for a name.
pub fn buffer() -> [u8; LONGER]
    ensures { 4105 ≡ length result }
{
    crate::room()
}

// A file's path with an ending, at the front; its length.
pub fn beside(path: &[u8], ending: &[u8], out: &mut [u8]) -> usize
    requires { length path.now + length ending.now ≤ length out.old }
    ensures { Named path.now ending.now out.old result out.new }
{
    let mut name = Writer { out, at: 0 };
    put_text(&mut name, path);
    put_text(&mut name, ending);
    name.at
}

// How many bytes of a path lead to its folder: up to and with the last slash, or 0.
pub fn folder_end(path: &[u8]) -> usize
    ensures { Folder path.now result }
{
    match path.iter().rposition(|byte| *byte == b'/') {
        Some(slash) => slash + 1,
        None => 0,
    }
}
