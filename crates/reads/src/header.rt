// The header: its words one by one, and all that a call needs of it read once, by value.
ghost use Rattle.std.specs.Prelude.{◌≡◌, true, ◌≤◌, ◌<◌, length, get_or};
ghost use Rattle.model.specs.Layout.{directory_at, shape_of, sound};
ghost use Rattle.reads.specs.Cells.{shape_by, Read};
ghost use Rattle.reads.specs.Front.{limits_fit, offsets_fit};

use crate::layout;
use crate::layout::Shape;

// What a store keeps for life (format, limits, load bounds), where its parts begin, how many buckets it can have and how many words a card
// cell has, and its state: read once.
#[derive(Clone, Copy)]
pub struct Header {
    pub format: u32,
    pub cards: u32,
    pub faults: u32,
    pub upper: u32,
    pub lower: u32,
    pub top: u32,
    pub segments: usize,
    pub base: usize,
    pub width: usize,
    pub behind: usize,
    pub maxp: u32,
    pub p: u32,
}

// A word.
pub fn word(w: &[u32], at: usize) -> u32
    requires { at < length w.now }
    ensures { result ≡ get_or w.now at 0 }
{
    w[at]
}

// The same as a number to index by.
pub fn wide_word(w: &[u32], at: usize) -> usize
    requires { at < length w.now }
    ensures { result ≡ get_or w.now at 0 }
{
    word(w, at) as usize
}

// The shape that words tell.
#[tactic(auto, unfolding(model::specs::Layout::shape_of))]
pub fn shape_of(w: &[u32]) -> Shape
    requires { directory_at ≤ length w.now }
    ensures { shape_by result ≡ shape_of w.now }
{
    let format = word(w, layout::FORMAT_AT);
    let bounds = word(w, layout::BOUNDS_AT);
    Shape {
        format,
        cards: word(w, layout::LIMIT_AT),
        faults: word(w, layout::FAULT_LIMIT_AT),
        upper: layout::upper_by(format, bounds),
        lower: layout::lower_by(format, bounds),
    }
}

// The header, once the shape, the length and the offsets are right: the parts begin where its own words say.
#[tactic(auto, using(crate::proofs::FrontLaws::head_there))]
pub fn read(w: &[u32]) -> Header
    requires { (limits_fit w.now ≡ true) × (offsets_fit w.now ≡ true) }
    ensures { Read w.now result }
{
    let s = shape_of(w);
    Header {
        format: s.format,
        cards: s.cards,
        faults: s.faults,
        upper: s.upper,
        lower: s.lower,
        top: layout::top_of(s),
        segments: wide_word(w, layout::SEGMENTS_OFFSET_AT),
        base: wide_word(w, layout::CARDS_OFFSET_AT),
        width: layout::card_width(s),
        behind: wide_word(w, layout::FAULTS_OFFSET_AT),
        maxp: word(w, layout::MAXP_AT),
        p: word(w, layout::P_AT),
    }
}

// The header of a store known to be sound, read once.
pub fn header_of(w: &[u32]) -> Header
    requires { sound w.now ≡ true }
    ensures { Read w.now result }
{
    read(w)
}
