// The store of cards: Open and the four calls, which take any input. Public to all above are these, and for an operation that knows its
// words to be sound a call in two steps and the cards one after another. What `reads` and `checker` have of use above is handed on here,
// so that code above names `store` alone.
#![tactic(auto)]

ghost use Rattle.std.specs.Prelude.{[]};
ghost use Rattle.model.specs.Calls.{open_call, asked};
ghost use Rattle.model.specs.Runs.{Act, outcome};
ghost use Rattle.store.specs.Leaves.{Leaves, Opens, Admits};
ghost use Rattle.store.specs.Numbers.{number_in};

use reads::layout;
use writer::fresh;

mod answer; // answer.rt: what a call gives
mod enters; // enters.rt: Enter on a sound store
mod files; // files.rt: File on a sound store
pub mod numbers; // numbers.rt: the refusals and their numbers
mod order; // order.rt: the cards of a store one after another, by bucket and chain
mod plans; // plans.rt: a call's whole answer before a word is changed
mod search; // search.rt: the search of a chain for a serial
pub mod stores; // stores.rt: a store known to be sound, its header read once
mod shows; // shows.rt: Show on a sound store
mod withdraws; // withdraws.rt: Withdraw on a sound store

pub use answer::{Answer, Wrote};
pub use checker::{check, clear};
pub use numbers::{Refusal, number_of};
pub use reads::layout::need;

// What a caller sizes its buffers by.
pub use reads::layout::{
    CARD_WIDTH, CARDS_AT, FAULT_WIDTH, MOST_CARDS, MOST_FAULTS, MOST_WORDS, NEED,
};

// A call on a store known to be sound, in two steps: its plan, and what the plan says.
pub use enters::make_enter;
pub use files::make_file;
pub use plans::{Plan, buckets, plan_enter, plan_file, plan_show, plan_withdraw};
pub use search::{Found, Spot};
pub use shows::put_history;
pub use withdraws::make_withdraw;

// The cards of a store known to be sound, one after another, and the words of their cells.
pub use order::{At, first_card, next_card};
pub use reads::cells::View;
pub use reads::header::{Header, header_of};
pub use reads::layout::{FAULTS_HELD_AT, HELD_AT, TO_CODE, TO_DAY, TO_FIRST, TO_NEXT};
pub use stores::Sound;

// Sets a fresh store for C cards and F faults with the load bounds U and L, whatever the words held: above U cards a bucket the table
// grows, below L it contracts. Refused are, in this order, a C or F out of range (BadLimits), a U or L out of range (BadBounds) and a wrong
// length (BadLength), and in all three every word stays.
pub fn open(
    words: &mut [u32],
    cards: u32,
    faults: u32,
    upper: u32,
    lower: u32,
) -> Result<(), Refusal>
    ensures { Opens (open_call words.old (asked cards faults upper lower)) (number_in result) words.new }
{
    let s = layout::shape_for(cards, faults, upper, lower);
    if !layout::limits_ok(s) {
        return Err(Refusal::BadLimits);
    }
    if !layout::bounds_ok(s) {
        return Err(Refusal::BadBounds);
    }
    if words.len() != layout::length_for(s) {
        return Err(Refusal::BadLength);
    }
    fresh::fill(words, s);
    Ok(())
}

// What every call asks first, of any words and scratch: ShortScratch where the scratch is shorter than the words need, then NotSound where
// they are not those of a sound store. Under ShortScratch the scratch stays, else the bytes that the check takes end zero.
pub fn admit(words: &[u32], scratch: &mut [u8]) -> Result<(), Refusal>
    ensures { Admits words.now scratch.old (number_in result) scratch.new }
{
    if scratch.len() < layout::need(words) {
        return Err(Refusal::ShortScratch);
    }
    if !checker::check(words, scratch) {
        return Err(Refusal::NotSound);
    }
    Ok(())
}

// Enters a card with this serial, at the end of its bucket's chain.
// Kept: a rule of the project, here and below: a serial goes by value as sixteen bytes, with its length beside it.
pub fn enter(words: &mut [u32], scratch: &mut [u8], serial: [u8; 16], len: usize) -> Answer
    ensures { Leaves (outcome words.old scratch.old (Act.enter serial len)) result words.new [] scratch.new }
{
    match admit(words, scratch) {
        Ok(()) => enters::enter_in(words, serial, len),
        Err(refusal) => refusal.into(),
    }
}

// Adds a fault to the history of the card with this serial.
pub fn file(
    words: &mut [u32],
    scratch: &mut [u8],
    serial: [u8; 16],
    len: usize,
    day: u32,
    code: u32,
) -> Answer
    ensures { Leaves (outcome words.old scratch.old (Act.file serial len day code)) result words.new [] scratch.new }
{
    match admit(words, scratch) {
        Ok(()) => files::file_in(words, serial, len, day, code),
        Err(refusal) => refusal.into(),
    }
}

// Lists the faults of the card with this serial in the room, day and code of each, by rising day and those of one day as filed; the words stay.
pub fn show(
    words: &[u32],
    scratch: &mut [u8],
    serial: [u8; 16],
    len: usize,
    room: &mut [u32],
) -> Answer
    ensures { Leaves (outcome words.now scratch.old (Act.show serial len room.old)) result words.now room.new scratch.new }
{
    match admit(words, scratch) {
        Ok(()) => shows::show_in(words, serial, len, room),
        Err(refusal) => refusal.into(),
    }
}

// Lists the faults of the card with this serial in the room, as Show does, and removes the card.
pub fn withdraw(
    words: &mut [u32],
    scratch: &mut [u8],
    serial: [u8; 16],
    len: usize,
    room: &mut [u32],
) -> Answer
    ensures { Leaves (outcome words.old scratch.old (Act.withdraw serial len room.old)) result words.new room.new scratch.new }
{
    match admit(words, scratch) {
        Ok(()) => withdraws::withdraw_in(words, serial, len, room),
        Err(refusal) => refusal.into(),
    }
}
