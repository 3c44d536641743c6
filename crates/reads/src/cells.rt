// The words of a store with its header, which says where its parts begin: words of buckets and of cells, read.
ghost use Rattle.std.specs.Prelude.{Bool, true, false, cond, ◌≡◌, ◌≤◌, ◌<◌};
ghost use Rattle.model.specs.Layout.{fault_width, card_word, fault_word, sound};
ghost use Rattle.model.specs.Shape.{card_width};
ghost use Rattle.model.specs.Meaning.{bucket_word};
ghost use Rattle.reads.specs.Cells.{shape_in, Sized, Read, width_of, limit_of, cell_word};

use crate::header::Header;
use crate::{header, layout};

// The words of a store as its header tells them: as long as its shape asks, with its parts where it says.
#[derive(Clone, Copy)]
pub struct View<'a> {
    pub words: &'a [u32],
    pub header: Header,
    ghost sized: { Sized words.now header },
}

// One of the two parts of a store's cells: where it begins, how many words each of its cells has, and how many cells it has.
pub trait Part {
    ghost faults: { Bool };

    fn start(h: Header) -> usize
        ensures { result ≡ cond faults h.behind h.base };

    fn width(h: Header) -> usize
        requires { h.width ≡ card_width (shape_in h) }
        ensures { result ≡ width_of (shape_in h) faults };

    fn limit(h: Header) -> u32
        ensures { result ≡ limit_of (shape_in h) faults };
}

#[derive(Clone, Copy, PartialEq, Eq, Debug)]
pub struct Cards;

impl Part for Cards {
    ghost faults = { false };

    fn start(h: Header) -> usize {
        h.base
    }

    #[tactic(auto, unfolding(crate::specs::Cells::width_of))]
    fn width(h: Header) -> usize {
        h.width
    }

    #[tactic(auto, unfolding(crate::specs::Cells::limit_of))]
    fn limit(h: Header) -> u32 {
        h.cards
    }
}

#[derive(Clone, Copy, PartialEq, Eq, Debug)]
pub struct Faults;

impl Part for Faults {
    ghost faults = { true };

    fn start(h: Header) -> usize {
        h.behind
    }

    #[tactic(auto, unfolding(crate::specs::Cells::width_of))]
    fn width(h: Header) -> usize {
        layout::FAULT_WIDTH
    }

    #[tactic(auto, unfolding(crate::specs::Cells::limit_of))]
    fn limit(h: Header) -> u32 {
        h.faults
    }
}

impl<'a> View<'a> {
    // The words of a store known to be sound, with their header, which is read once.
    pub fn of_sound(words: &'a [u32]) -> View<'a>
        requires { sound words.now ≡ true }
        ensures words { result.words.now ≡ words.now }
        ensures header { Read words.now result.header }
    {
        View {
            words,
            header: header::header_of(words),
        }
    }

    // Word k of cell i of a part, read in the words from the part on: the compiler then keeps one address for all k, and adds k where it reads.
    pub fn word<P: Part>(&self, i: u32, k: usize) -> u32
        requires { (1 ≤ i) × (i ≤ limit_of (shape_in self.now.header) P.faults) × (k < width_of (shape_in self.now.header) P.faults) }
        ensures { result ≡ cell_word (shape_in self.now.header) self.now.words.now P.faults i k }
    {
        let start = P::start(self.header);
        let width = P::width(self.header);
        let cell = (i - 1) as usize;
        let cells = &self.words[start..];
        cells[width * cell + k]
    }

    // The word of bucket b: its first cell, 0 for none.
    pub fn bucket_word(&self, b: u32) -> u32
        requires { b < self.now.header.top }
        ensures { result ≡ bucket_word (shape_in self.now.header) self.now.words.now b }
    {
        self.words[self.header.segments + b as usize]
    }

    // Word k of card cell i, and of fault cell i.
    #[tactic(auto, unfolding(crate::specs::Cells::limit_of, crate::specs::Cells::width_of, crate::specs::Cells::cell_word))]
    pub fn card_word(&self, i: u32, k: usize) -> u32
        requires { (1 ≤ i) × (i ≤ self.now.header.cards) × (k < self.now.header.width) }
        ensures { result ≡ card_word (shape_in self.now.header) self.now.words.now i k }
    {
        self.word::<Cards>(i, k)
    }

    #[tactic(auto, unfolding(crate::specs::Cells::limit_of, crate::specs::Cells::width_of, crate::specs::Cells::cell_word))]
    pub fn fault_word(&self, i: u32, k: usize) -> u32
        requires { (1 ≤ i) × (i ≤ self.now.header.faults) × (k < fault_width) }
        ensures { result ≡ fault_word (shape_in self.now.header) self.now.words.now i k }
    {
        self.word::<Faults>(i, k)
    }
}
