// A fresh store as a file, from the arguments' bytes.
ghost use Rattle.std.specs.Prelude.{◌≡◌, ◌≤◌, length};
ghost use Rattle.model.specs.Layout.{length_for};
ghost use Rattle.model.specs.Calls.{shape_for, asked};
ghost use Rattle.disk.specs.Desk.{most_bytes, argument as Desk·argument, terms_from, new_size, fresh_for, desk_new, made_number, made_len, Files, Makes};

use crate::{WORDS, room, texts, words};
use store::Refusal;
use text::numbers;

// An argument's value; what is no number counts as 0, which no limit and no bound may be.
// Kept: what may not change, the definition `argument` of specs/Desk.antt, by which 0 goes on to Open and is refused there.
fn argument(field: &[u8]) -> u32
    ensures { result ≡ Desk·argument field.now }
{
    if !numbers::is_number(field) {
        return 0;
    }
    numbers::number(field)
}

// The fields of the arguments that a store is opened by.
#[derive(Clone, Copy)]
pub struct Fields<'a> {
    pub cards: &'a [u8],
    pub faults: &'a [u8],
    pub upper: &'a [u8],
    pub lower: &'a [u8],
}

// What Open is asked for.
#[derive(Clone, Copy)]
struct Terms {
    cards: u32,
    faults: u32,
    upper: u32,
    lower: u32,
}

impl<'a> From<Fields<'a>> for Terms {
    ghost from_gives = { λ fields terms. asked terms.cards terms.faults terms.upper terms.lower ≡ terms_from fields.cards.now fields.faults.now fields.upper.now fields.lower.now };

    fn from(fields: Fields<'a>) -> Terms {
        Terms {
            cards: argument(fields.cards),
            faults: argument(fields.faults),
            upper: argument(fields.upper),
            lower: argument(fields.lower),
        }
    }
}

// The words of a store with these limits; the bounds make no difference.
fn length_for(terms: Terms) -> usize
    ensures { result ≡ length_for (shape_for (asked terms.cards terms.faults terms.upper terms.lower)) }
{
    store::CARDS_AT
        + store::CARD_WIDTH * (terms.cards as usize)
        + store::FAULT_WIDTH * (terms.faults as usize)
}

// A fresh store, as bytes at the front, so many. Limits that ask for more words than the longest store has are out of range.
fn fresh_for(terms: Terms, file: &mut [u8]) -> Result<usize, Refusal>
    requires { most_bytes ≤ length file.old }
    ensures { Files (fresh_for (asked terms.cards terms.faults terms.upper terms.lower)) file.old (made_number result) (made_len result) file.new }
{
    let n = length_for(terms);
    if WORDS < n {
        return Err(Refusal::BadLimits);
    }
    let mut space: [u32; WORDS] = room();
    store::open(
        &mut space[..n],
        terms.cards,
        terms.faults,
        terms.upper,
        terms.lower,
    )?;
    let len = 4 * n;
    words::write(&space[..n], &mut file[..len]);
    Ok(len)
}

// Open's number.
fn number_of(made: Result<usize, Refusal>) -> u32
    ensures { result ≡ made_number made }
{
    match made {
        Ok(_) => 0,
        Err(refusal) => refusal.into(),
    }
}

// The bytes of the file, or why none is made, and the bytes of the text.
#[derive(Clone, Copy)]
pub struct Made {
    pub file: Result<usize, Refusal>,
    pub said: usize,
}

// A fresh store's file for four arguments, and Open's number as a line.
pub fn fresh(fields: Fields, file: &mut [u8], out: &mut [u8]) -> Made
    requires { (most_bytes ≤ length file.old) × (new_size ≤ length out.old) }
    ensures { Makes (desk_new fields.entry.cards.now fields.entry.faults.now fields.entry.upper.now fields.entry.lower.now) file.old out.old (made_number result.file) (made_len result.file) result.said file.new out.new }
{
    let made = fresh_for(fields.into(), file);
    Made {
        file: made,
        said: texts::write_line(out, number_of(made)),
    }
}
