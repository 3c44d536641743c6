// Runs the script on standard input, and prints each line of it with what came of it: of a report its number, the bytes written, checksums
// of all of the output, the scratch, the words and the lengths as the report left them, and the text itself where it is short. Before
// each report scratch and output are filled anew, so that what it left there can be told from what it wrote. The second
// program prints the same (`reference runs`).
//
//     # TEXT                     a heading
//     N                          a new run: no words, and no length in the list
//     O C F U L                  a store opened with these limits and bounds joins the end of the run, and its length the list:
//                                Open's number
//     C AT N                     a copy of the N words from word AT on joins the run as a store; they may stand behind the run's end
//     E SERIAL                   Enter in the store that joined last: the number
//     F SERIAL DAY CODE          File, likewise
//     W SERIAL                   Withdraw, likewise
//     e N I STEP                 N numbered cards are entered, from number I on by steps: how many were
//     f N I STEP D DS K KS       N faults are filed for numbered cards, days from D on by steps DS, codes from K on by steps KS
//     w N I STEP                 N numbered cards are withdrawn
//     P AT N STRIDE VALUE STEP   N words of the run from word AT on, that far apart, are set to values by steps
//     Z N                        the run has N words: it is cut, or words of 0 are added
//     L AT VALUE                 length AT of the list is set
//     M N                        the list has N lengths: it is cut, or lengths of 0 are added
//     B N                        scratch has N bytes from here on
//     T N                        the output has N bytes from here on
//     V FROM STEP                scratch and output hold these bytes by steps before each report
//     R                          the report
//
// A numbered card is four digits and up to twelve hyphens. Card numbers go round at 1,024, days at 65,535, codes at 9,999.
#![tactic(auto)]

mod asks; // asks.rt: calls on one store
mod desk; // desk.rt: the script: each line is done and told
mod lays; // lays.rt: words and lengths laid by hand
mod numbered; // numbered.rt: cards by number, and days and codes by steps
mod reports; // reports.rt: one report, and what it left

use desk::Buffers;
use script::input;
use script::lines::Line;
use std::io;

// A script of up to 65,536 bytes; words for eight stores of the largest size and some more, and output for a line of each code.
fn main(rt: HostRuntime) -> io::Result<()> {
    let mut script = [0u8; 65536];
    let n = input::read_full(&rt, &mut script)?;
    let mut words = [0u32; 125200];
    let mut lengths = [0u32; 16];
    let mut scratch = [0u8; 1000];
    let mut out = [0u8; 300000];
    let mut buffers = Buffers::new(&mut words, &mut lengths, &mut scratch, &mut out);
    for piece in script[..n].split_inclusive(|b| *b == b'\n') {
        buffers.turn(&rt, Line::new(piece))?;
    }
    Ok(())
}
