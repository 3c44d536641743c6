// Runs the script on standard input, and prints each line of it with what came of it: of a call the four numbers that it gave, and
// checksums of all words of the store, of the room and of the scratch as the call left them. Before each call scratch and room
// are filled anew, so that what the call left there can be told from what it wrote. The second program prints the same
// (`reference calls`).
//
//     # TEXT                a heading
//     O C F U L N           Open on the first N words, which are the store from here on
//     B N                   scratch has N bytes from here on
//     R N                   the room has N words from here on
//     E SERIAL              Enter
//     F SERIAL DAY CODE     File
//     S SERIAL              Show
//     W SERIAL              Withdraw
//     e, f, s, w N I STEP   N such calls for numbered serials, from number I on by steps; what they leave is printed in one line for 64
//     g N I STEP            N entries for numbered serials; what they leave is printed in one line for each change of the buckets
//     c N I STEP            the same for withdrawals
//     A                     Show for each of the 256 bytes as a serial, and for a serial of the greatest length: the numbers
//     K B                   the serials of bucket B, in the order of its chain
//     P AT VALUE            word AT is set to a value
//     V AT                  the value of word AT
//
// In a serial `_` stands for a zero byte, and the bytes behind a `|` are sent but not counted in the length.
#![tactic(auto)]

mod asks; // asks.rt: one call: what is left, and how that is told
mod chains; // chains.rt: the serials of a bucket, read from the words
mod desk; // desk.rt: the script: each line is done and told
mod fills; // fills.rt: what scratch and room are filled with before a call
mod numbered; // numbered.rt: serials by number, and many calls for them

use desk::Desk;
use script::input;
use script::lines::Line;
use std::io;

// A script of up to 65,536 bytes, and words for the largest store.
fn main(rt: HostRuntime) -> io::Result<()> {
    let mut script = [0u8; 65536];
    let n = input::read_full(&rt, &mut script)?;
    let mut words = [4294967295u32; 15648];
    let mut scratch = [0u8; 1000];
    let mut room = [0u32; 64];
    let mut desk = Desk::new(&mut words, &mut scratch, &mut room);
    for piece in script[..n].split_inclusive(|b| *b == b'\n') {
        desk.turn(&rt, Line::new(piece))?;
    }
    Ok(())
}
