// What a cell has to be by itself.
ghost use Rattle.std.specs.Prelude.{◌≡◌, ◌≤◌, ◌<◌};
ghost use Rattle.reads.specs.Cells.{shape_in, Read, limit_of};
ghost use Rattle.checker.specs.Fits.{met_first, free_fits, fault_fits, card_fits, Suits, cell_fits};

use reads::cells::{Part, View};
use reads::{layout, serial};

// Which chain a cell stands in: the free one of its part, that of a bucket, or a history.
#[derive(Clone, Copy, PartialEq, Eq, Debug)]
pub enum Chain {
    Free,
    Bucket(u32),
    History,
}

// A free cell is zero but for its next word.
fn free_fits<P: Part>(view: &View, i: u32) -> bool
    requires { (1 ≤ i) × (i ≤ limit_of (shape_in view.now.header) P.faults) }
    ensures { result ≡ free_fits (shape_in view.now.header) view.now.words.now P.faults i }
{
    let width = P::width(view.header);
    let at = P::start(view.header) + width * ((i - 1) as usize);
    view.words[at + 1..at + width].iter().all(|&word| word == 0)
}

// A fault of a history has a valid day and code.
#[tactic(auto, unfolding(crate::specs::Fits::fault_fits))]
fn fault_fits(view: &View, i: u32) -> bool
    requires { (1 ≤ i) × (i ≤ view.now.header.faults) }
    ensures { result ≡ fault_fits (shape_in view.now.header) view.now.words.now i }
{
    serial::valid_fault(
        view.fault_word(i, layout::TO_DAY),
        view.fault_word(i, layout::TO_CODE),
    )
}

// Whether card i is met from cell `first` on before any other card with its serial.
fn met_first(view: &View, first: u32, i: u32) -> bool
    requires { (1 ≤ i) × (i ≤ view.now.header.cards) }
    ensures { result ≡ met_first view.now.header.cards (shape_in view.now.header) view.now.words.now first i }
{
    let mut j = first;
    for _ in 0..view.header.cards {
        if j == i {
            return true;
        }
        if !layout::within(1, view.header.cards, j) || view.same_key(j, i) {
            return false;
        }
        j = view.card_word(j, layout::TO_NEXT);
    }
    false
}

// A card of bucket b has a valid serial with zero padding, its address is b, and no card before it on the chain has its serial.
#[tactic(auto, unfolding(crate::specs::Fits::card_fits))]
fn card_fits(view: &View, b: u32, i: u32) -> bool
    requires { Read view.now.words.now view.now.header × (b < view.now.header.top) × (1 ≤ i) × (i ≤ view.now.header.cards) }
    ensures { result ≡ card_fits (shape_in view.now.header) view.now.words.now b i }
{
    let len = view.card_word(i, layout::TO_LENGTH) as usize;
    let bytes = view.bytes_at(i);
    serial::valid_serial(bytes, len)
        && rules::reader_address(
            rules::serial_code(bytes, len),
            view.header.maxp,
            view.header.p,
        ) == b
        && met_first(view, view.bucket_word(b), i)
}

// What cell i has to be, by the chain that it stands in.
#[tactic(auto, unfolding(crate::specs::Fits::cell_fits, reads::specs::Cells::limit_of))]
pub fn cell_fits<P: Part>(view: &View, chain: Chain, i: u32) -> bool
    requires { Read view.now.words.now view.now.header × Suits view.now.header P.faults chain × (1 ≤ i) × (i ≤ limit_of (shape_in view.now.header) P.faults) }
    ensures { result ≡ cell_fits (shape_in view.now.header) view.now.words.now P.faults chain i }
{
    match chain {
        Chain::Free => free_fits::<P>(view, i),
        Chain::Bucket(b) => card_fits(view, b, i),
        Chain::History => fault_fits(view, i),
    }
}
