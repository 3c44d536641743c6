// Text: its lines and fields, and numbers in decimal.

#![tactic(auto)]

pub mod decimals; // decimals.rt: numbers as text
pub mod letters; // letters.rt: the bytes of a text, by name
pub mod numbers; // numbers.rt: number fields, their test and their value
pub mod pieces; // pieces.rt: where a line or a field ends
pub mod sink; // sink.rt: where a text goes
