// A store's words as they are read: the numbers of the layout, the header, serials and their keys, words of buckets and cells. Nothing
// here writes. Every module is public to the other crates of the store's layer, `checker`, `writer` and `store`; the crates above it
// take what `store` hands on under its own name.
#![tactic(auto)]

pub mod cells; // cells.rt: words of buckets and of cells
pub mod header; // header.rt: the header, read once
pub mod keys; // keys.rt: serials compared, the last byte first
pub mod layout; // layout.rt: every number of the layout; lengths, offsets and limits of a shape
pub mod serial; // serial.rt: serials and faults, valid or not, and serials as words
