// The two parts of the checker: the cards with their free chain, the faults with theirs.
ghost use Rattle.std.specs.Prelude.{◌+◌, ◌≤◌, length};
ghost use Rattle.model.specs.Layout.{shape_of};
ghost use Rattle.model.specs.Shape.{need};
ghost use Rattle.reads.specs.Cells.{shape_in, Read};
ghost use Rattle.checker.specs.Checker.{part_of, DidPart, DidCheck};

use crate::chained::Chained;
use crate::fits::Chain;
use crate::{front, walks};
use reads::cells::{Cards, Faults, View};
use reads::header;

// All cells of a part stand in a chain, once, and as many as the header says are held.
pub fn part_fits<P: Chained>(view: &View, scratch: &mut [u8]) -> bool
    requires { Read view.now.words.now view.now.header × (view.now.header.maxp + view.now.header.p ≤ view.now.header.top) × (need (shape_in view.now.header) ≤ length scratch.old) }
    ensures { DidPart (part_of (shape_in view.now.header) view.now.words.now P.faults scratch.old) result scratch.new }
{
    let first = P::free_word(view);
    let Some(free) = walks::walk::<P>(view, scratch, Chain::Free, first) else {
        return false;
    };
    let Some(held) = walks::walk_all::<P>(view, scratch, P::chain_count(view.header)) else {
        return false;
    };
    held == P::held_word(view)
        && u64::from(free.count) + u64::from(held) == u64::from(P::limit(view.header))
}

// The front, then the cards, then the faults; bytes of scratch behind the marks stay.
pub fn all_fit(w: &[u32], scratch: &mut [u8]) -> bool
    requires { need (shape_of w.now) ≤ length scratch.old }
    ensures { DidCheck w.now scratch.old result scratch.new }
{
    if !front::front_fits(w) {
        return false;
    }
    let view = View {
        words: w,
        header: header::read(w),
    };
    part_fits::<Cards>(&view, scratch) && part_fits::<Faults>(&view, scratch)
}
