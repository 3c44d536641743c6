// Every write into a store's words: a fresh store, a card, a fault, the table with one bucket more or less. Public to `store` and to
// operations beside it that make or fill a store. No program calls these: a function here asks for words of a store with room for what it
// writes; `fill` asks for their length alone.
//
// Kept: words and header in one struct are no plainer, since a split or a join writes words that the header holds a copy of, so that
// the struct would not be true of itself between the two.
#![tactic(auto)]

pub mod fresh; // fresh.rt: the words of a fresh store
pub mod table; // table.rt: split and contraction
pub mod writes; // writes.rt: every write into a sound store
