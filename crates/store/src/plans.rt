// The plans of the four calls on a store known to be sound: each gives the answer of a call that is refused, or the call's whole answer with the
// header and the places that the change will touch, before a word is changed.
ghost use Rattle.std.specs.Prelude.{◌≡◌, true, ◌+◌, ◌-◌, ◌<◌, length};
ghost use Rattle.model.specs.Serial.{valid_serial};
ghost use Rattle.model.specs.Model.{size, bucket};
ghost use Rattle.model.specs.Layout.{follow, decode, sound};
ghost use Rattle.model.specs.Meaning.{next_card};
ghost use Rattle.model.specs.Calls.{enter_step, file_step, show_step, withdraw_step};
ghost use Rattle.reads.specs.Cells.{shape_in};
ghost use Rattle.reads.specs.Chains.{Ends};
ghost use Rattle.store.specs.Numbers.{number_of};
ghost use Rattle.store.specs.Plans.{grow_scan, shrink_scan, refused_after, accepted_plan, Plans, PlansFor};

use crate::answer::Answer;
use crate::numbers::Refusal;
use crate::search;
use crate::search::Spot;
use crate::stores::Sound;
use reads::cells::View;
use reads::header::Header;
use reads::{header, layout, serial};

// A call that goes ahead: its answer, where its change takes place, and the header that both go by.
#[derive(Clone, Copy)]
pub struct Plan {
    pub answer: Answer,
    pub spot: Spot,
    pub header: Header,
}

// The answer of a call that is refused where its serial was looked for.
fn refuse(refusal: Refusal, comparisons: u32, faults: u32) -> Answer
    ensures { result ≡ refused_after (number_of refusal) comparisons faults }
{
    Answer {
        comparisons,
        faults,
        ..refusal.into()
    }
}

// A call that goes ahead where its serial was looked for.
fn accept(header: Header, spot: Spot, scanned: u32, faults: u32) -> Plan
    ensures { result ≡ accepted_plan header spot scanned faults }
{
    Plan {
        answer: Answer {
            number: 0,
            comparisons: spot.found.place,
            scanned,
            faults,
        },
        spot,
        header,
    }
}

// How many buckets the store has.
pub fn buckets(w: &[u32]) -> u32
    requires { sound w.now ≡ true }
    ensures { result ≡ size (decode w.now) }
{
    let store = Sound::of(w);
    store.view.header.maxp + store.view.header.p
}

// How many cards the chain from cell `first` on has.
fn chain_len(view: &View, first: u32) -> u32
    requires { Ends view.now.header.cards (next_card (shape_in view.now.header) view.now.words.now) first }
    ensures { result ≡ length (follow view.now.header.cards (next_card (shape_in view.now.header) view.now.words.now) first) }
{
    let mut i = first;
    let mut n: u32 = 0;
    // Kept: no plainer, since this goes along a chain of cells by their next words and no index is counted by hand.
    while i != 0 {
        n += 1;
        i = view.card_word(i, layout::TO_NEXT);
    }
    n
}

// How many cards bucket b has.
fn bucket_len(store: &Sound, b: u32) -> u32
    requires { b < store.now.view.header.maxp + store.now.view.header.p }
    ensures { result ≡ length (bucket (decode store.now.view.words.now) b) }
{
    let first = store.view.bucket_word(b);
    chain_len(&store.view, first)
}

// What an entry into bucket b will scan: bucket p with the new card, if the store then splits it.
fn grow_scan(store: &Sound, b: u32) -> u32
    ensures { result ≡ grow_scan (decode store.now.view.words.now) b }
{
    let h = store.view.header;
    let n = header::word(store.view.words, layout::HELD_AT);
    if !rules::must_split(h.top, h.upper, n + 1, h.maxp + h.p) {
        return 0;
    }
    let k = bucket_len(store, h.p);
    if b == h.p { k + 1 } else { k }
}

// What a withdrawal from bucket b will scan: the last bucket without the card, if the store then joins it to another.
fn shrink_scan(store: &Sound, b: u32) -> u32
    ensures { result ≡ shrink_scan (decode store.now.view.words.now) b }
{
    let h = store.view.header;
    let n = header::word(store.view.words, layout::HELD_AT);
    let size = h.maxp + h.p;
    if !rules::must_contract(h.lower, n.saturating_sub(1), size) {
        return 0;
    }
    let k = bucket_len(store, size - 1);
    if b == size - 1 {
        k.saturating_sub(1)
    } else {
        k
    }
}

// Enter: refused by BadSerial, by AlreadyHeld where a card has the serial, by CardsFull where no cell is free.
pub fn plan_enter(store: &Sound, serial: [u8; 16], len: usize) -> Result<Plan, Answer>
    ensures { Plans (enter_step (decode store.now.view.words.now) serial len).answer store.now.view.words.now serial len result }
{
    if !serial::valid_serial(serial, len) {
        return Err(Refusal::BadSerial.into());
    }
    let h = store.view.header;
    let spot = search::find(store, serial, len);
    if spot.found.cell.is_some() {
        return Err(refuse(Refusal::AlreadyHeld, spot.found.place, 0));
    }
    if header::word(store.view.words, layout::HELD_AT) == h.cards {
        return Err(refuse(Refusal::CardsFull, spot.found.place, 0));
    }
    let scanned = grow_scan(store, spot.bucket);
    Ok(accept(h, spot, scanned, 0))
}

// File: refused by BadSerial, by BadFault for day and code, by NotHeld where no card has the serial, by FaultsFull where no fault cell is free.
// Kept: the C interface has day and code as two numbers, and the entry point hands them on as it has them.
pub fn plan_file(
    store: &Sound,
    serial: [u8; 16],
    len: usize,
    day: u32,
    code: u32,
) -> Result<Plan, Answer>
    ensures { Plans (file_step (decode store.now.view.words.now) serial len day code).answer store.now.view.words.now serial len result }
{
    if !serial::valid_serial(serial, len) {
        return Err(Refusal::BadSerial.into());
    }
    if !serial::valid_fault(day, code) {
        return Err(Refusal::BadFault.into());
    }
    let h = store.view.header;
    let spot = search::find(store, serial, len);
    let Some(cell) = spot.found.cell else {
        return Err(refuse(Refusal::NotHeld, spot.found.place, 0));
    };
    if header::word(store.view.words, layout::FAULTS_HELD_AT) == h.faults {
        return Err(refuse(Refusal::FaultsFull, spot.found.place, 0));
    }
    let n = store.view.card_word(cell, layout::TO_COUNT);
    Ok(accept(h, spot, 0, n + 1))
}

// Show and Withdraw of a valid serial: refused by NotHeld where no card has it, by ShortRoom where its pairs do not fit.
fn plan_pairs(store: &Sound, serial: [u8; 16], len: usize, room: usize) -> Result<Plan, Answer>
    requires { valid_serial serial len ≡ true }
    ensures { PlansFor (show_step (decode store.now.view.words.now) serial len) room store.now.view.words.now serial len result }
{
    let h = store.view.header;
    let spot = search::find(store, serial, len);
    let Some(cell) = spot.found.cell else {
        return Err(refuse(Refusal::NotHeld, spot.found.place, 0));
    };
    let n = store.view.card_word(cell, layout::TO_COUNT);
    if room < 2 * (n as usize) {
        return Err(refuse(Refusal::ShortRoom, spot.found.place, n));
    }
    Ok(accept(h, spot, 0, n))
}

// Show, for a room of so many words: refused by BadSerial, then as above.
pub fn plan_show(store: &Sound, serial: [u8; 16], len: usize, room: usize) -> Result<Plan, Answer>
    ensures { PlansFor (show_step (decode store.now.view.words.now) serial len) room store.now.view.words.now serial len result }
{
    if !serial::valid_serial(serial, len) {
        return Err(Refusal::BadSerial.into());
    }
    plan_pairs(store, serial, len, room)
}

// Withdraw: as Show, and what it will scan.
pub fn plan_withdraw(
    store: &Sound,
    serial: [u8; 16],
    len: usize,
    room: usize,
) -> Result<Plan, Answer>
    ensures { PlansFor (withdraw_step (decode store.now.view.words.now) serial len) room store.now.view.words.now serial len result }
{
    if !serial::valid_serial(serial, len) {
        return Err(Refusal::BadSerial.into());
    }
    let plan = plan_pairs(store, serial, len, room)?;
    let scanned = shrink_scan(store, plan.spot.bucket);
    Ok(Plan {
        answer: Answer {
            scanned,
            ..plan.answer
        },
        ..plan
    })
}
