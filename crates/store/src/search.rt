// The search of a bucket's chain for a serial: it counts the cards that it compares.
ghost use Rattle.std.specs.Prelude.{◌≡◌, true, ◌≤◌, ◌<◌, take, get_or};
ghost use Rattle.model.specs.Serial.{valid_serial};
ghost use Rattle.model.specs.Layout.{serial_words, decode};
ghost use Rattle.model.specs.Meaning.{next_card};
ghost use Rattle.reads.specs.Cells.{shape_in};
ghost use Rattle.reads.specs.Chains.{Ends, has_key};
ghost use Rattle.store.specs.Search.{searched, Finds};

use crate::stores::Sound;
use reads::cells::View;
use reads::{keys, layout, serial};

// What a search gives: the cell of the card, if one has the serial; the place is the card's, from 1, else the chain's length; prev is the
// cell before the card, 0 for none, or the chain's last if no card has the serial.
// Kept: an Option in prev is no plainer, since the format links a chain behind cell 0 to its bucket's word, and `link` takes prev as it is.
#[derive(Clone, Copy)]
pub struct Found {
    pub cell: Option<u32>,
    pub place: u32,
    pub prev: u32,
}

// The same with the bucket whose chain was searched.
#[derive(Clone, Copy)]
pub struct Spot {
    pub bucket: u32,
    pub found: Found,
}

// Whether card i has the key. Most cards are told by the word that holds the key's last byte, which is `end`.
fn is_sought(
    view: &View,
    i: u32,
    len: u32,
    key: [u32; layout::SERIAL_WORDS],
    last: usize,
    end: u32,
) -> bool
    requires { (1 ≤ i) × (i ≤ view.now.header.cards) × (last < serial_words) × (end ≡ get_or key last 0) }
    ensures { result ≡ has_key (shape_in view.now.header) view.now.words.now i len key }
{
    view.end_word(i, last) == end && view.has_key(i, len, key)
}

// Goes along the chain from cell `first` until a card has the serial, and counts the cards compared.
pub fn search(view: &View, first: u32, len: u32, key: [u32; layout::SERIAL_WORDS]) -> Found
    requires { Ends view.now.header.cards (next_card (shape_in view.now.header) view.now.words.now) first }
    ensures { result ≡ searched (shape_in view.now.header) view.now.words.now first len key }
{
    let last = keys::last_word(len);
    let end = key[last];
    let mut i = first;
    let mut place: u32 = 0;
    let mut prev: u32 = 0;
    // Kept: no plainer, since this goes along a chain of cells by their next words and no index is counted by hand.
    while i != 0 {
        place += 1;
        if is_sought(view, i, len, key, last, end) {
            return Found {
                cell: Some(i),
                place,
                prev,
            };
        }
        prev = i;
        i = view.card_word(i, layout::TO_NEXT);
    }
    Found {
        cell: None,
        place,
        prev,
    }
}

// Where the card of a serial stands in a sound store: its bucket by the serial's code, and the search of that bucket's chain.
pub fn find(store: &Sound, serial: [u8; 16], len: usize) -> Spot
    requires { valid_serial serial len ≡ true }
    ensures { Finds (decode store.now.view.words.now) (take len serial) result }
{
    let key = serial::pack(serial);
    let code = rules::serial_code(serial, len);
    let bucket = rules::reader_address(code, store.view.header.maxp, store.view.header.p);
    let first = store.view.bucket_word(bucket);
    Spot {
        bucket,
        found: search(&store.view, first, len as u32, key),
    }
}
