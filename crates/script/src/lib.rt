// What the programs on a script share: reading it, its lines and their fields, serials, calls, and checksums of what a call left.

#![tactic(auto)]

pub mod calls; // calls.rt: Open and the calls on a store
pub mod input; // input.rt: standard input
pub mod lines; // lines.rt: lines, their fields, and the numbers in them
pub mod numbers; // numbers.rt: numbers from digits, and numbers that go round
pub mod serials; // serials.rt: a serial as it travels
pub mod sums; // sums.rt: checksums of words and of bytes
pub mod words; // words.rt: words by their places
