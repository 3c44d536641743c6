// Serials compared by their four words and their length, from the last byte to the first: one maker's serials begin alike.
ghost use Rattle.std.specs.Prelude.{◌≡◌, ◌+◌, ◌*◌, ◌≤◌, ◌<◌};
ghost use Rattle.model.specs.Serial.{most_bytes};
ghost use Rattle.model.specs.Layout.{to_serial, serial_words, card_word};
ghost use Rattle.reads.specs.Cells.{shape_in, word_bytes, key_at, bytes_at, same_key};
ghost use Rattle.reads.specs.Chains.{has_key};

use crate::cells::View;
use crate::layout::{SERIAL_WORDS, TO_LENGTH, TO_SERIAL};
use crate::serial;

// The bytes of a serial that a word holds.
const WORD_BYTES: usize = rules::SERIAL / SERIAL_WORDS;

// The word of a serial of this length that holds its last byte. Of any other length it is one of the four, too.
pub fn last_word(len: u32) -> usize
    ensures { (result < serial_words) × (1 ≤ len → len ≤ most_bytes → (word_bytes * result < len) × (len ≤ word_bytes * (result + 1))) }
{
    (len as usize + rules::SERIAL - 1) / WORD_BYTES % SERIAL_WORDS
}

impl<'a> View<'a> {
    // Word `last` of the serial in cell i, read in the words from that of the first cell on: a loop along a chain then keeps one address for
    // it, and another for the rest of the cells.
    pub fn end_word(&self, i: u32, last: usize) -> u32
        requires { (1 ≤ i) × (i ≤ self.now.header.cards) × (last < serial_words) }
        ensures { result ≡ card_word (shape_in self.now.header) self.now.words.now i (last + to_serial) }
    {
        let first = self.header.base + (last + TO_SERIAL);
        let cell = (i - 1) as usize;
        let ends = &self.words[first..];
        ends[self.header.width * cell]
    }

    // The four words of the serial in cell i.
    pub fn key_at(&self, i: u32) -> [u32; SERIAL_WORDS]
        requires { (1 ≤ i) × (i ≤ self.now.header.cards) }
        ensures { result ≡ key_at (shape_in self.now.header) self.now.words.now i }
    {
        [
            self.card_word(i, TO_SERIAL),
            self.card_word(i, TO_SERIAL + 1),
            self.card_word(i, TO_SERIAL + 2),
            self.card_word(i, TO_SERIAL + 3),
        ]
    }

    // The sixteen bytes of the card in cell i.
    #[tactic(auto, unfolding(crate::specs::Cells::bytes_at))]
    pub fn bytes_at(&self, i: u32) -> [u8; 16]
        requires { (1 ≤ i) × (i ≤ self.now.header.cards) }
        ensures { result ≡ bytes_at (shape_in self.now.header) self.now.words.now i }
    {
        let [a, b, c, d] = self.key_at(i);
        serial::unpack(a, b, c, d)
    }

    // Whether card i has a serial of this length and these four words: all bytes are compared and the length, never codes.
    // Kept: length and words stand beside one another as the cell has them, where the layout of the words fixes both.
    pub fn has_key(&self, i: u32, len: u32, key: [u32; SERIAL_WORDS]) -> bool
        requires { (1 ≤ i) × (i ≤ self.now.header.cards) }
        ensures { result ≡ has_key (shape_in self.now.header) self.now.words.now i len key }
    {
        (0..SERIAL_WORDS)
            .rev()
            .all(|k| self.card_word(i, k + TO_SERIAL) == key[k])
            && self.card_word(i, TO_LENGTH) == len
    }

    // Whether two cards have the same serial: its length and its four words. The word that holds the last byte tells most of them apart.
    pub fn same_key(&self, i: u32, j: u32) -> bool
        requires { (1 ≤ i) × (i ≤ self.now.header.cards) × (1 ≤ j) × (j ≤ self.now.header.cards) }
        ensures { result ≡ same_key (shape_in self.now.header) self.now.words.now i j }
    {
        let len = self.card_word(j, TO_LENGTH);
        let last = last_word(len);
        self.end_word(i, last) == self.end_word(j, last) && self.has_key(i, len, self.key_at(j))
    }
}
