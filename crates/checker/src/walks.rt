// Walks of chains over marks: each cell is within its limit, stands in no chain walked before, and is what its chain asks.
ghost use Rattle.std.specs.Prelude.{◌≡◌, ◌≤◌, ◌<◌};
ghost use Rattle.reads.specs.Cells.{shape_in, limit_of};
ghost use Rattle.checker.specs.Fits.{Suits, cell_fits};
ghost use Rattle.checker.specs.Walk.{may_come, DidWalk, DidWalks};
ghost use Rattle.checker.specs.Checker.{Walkable, base_of, chain_of, first_of, reach_of, walk_in, chains_of};

use crate::chained::Chained;
use crate::fits::Chain;
use crate::{fits, marks};
use reads::cells::View;
use reads::layout;

// What a walk that came to the end of its chain met: how many cells, and which was the last, 0 for none.
#[derive(Clone, Copy, PartialEq, Eq, Debug)]
pub struct Walked {
    pub count: u32,
    pub last: u32,
}

// Whether cell i may come next in a chain.
fn may_come<P: Chained>(view: &View, scratch: &[u8], chain: Chain, i: u32) -> bool
    requires { Walkable view.now.words.now scratch.now view.now.header × Suits view.now.header P.faults chain × (1 ≤ i) }
    ensures { result ≡ may_come (cell_fits (shape_in view.now.header) view.now.words.now P.faults chain) scratch.now (base_of (shape_in view.now.header) P.faults) (limit_of (shape_in view.now.header) P.faults) i }
{
    i <= P::limit(view.header)
        && !marks::is_marked(scratch, P::base(view.header) + (i - 1) as usize)
        && fits::cell_fits::<P>(view, chain, i)
}

// Follows a chain from `first` to its end, and marks each cell i as number i - 1 of its part.
pub fn walk<P: Chained>(view: &View, scratch: &mut [u8], chain: Chain, first: u32) -> Option<Walked>
    requires { Walkable view.now.words.now scratch.old view.now.header × Suits view.now.header P.faults chain }
    ensures { DidWalk (walk_in (shape_in view.now.header) view.now.words.now P.faults chain scratch.old first) result scratch.new }
{
    let mut i = first;
    let mut count: u32 = 0;
    let mut last: u32 = 0;
    // Kept: no plainer, since each turn goes to the cell that the one before it names, and no index is counted.
    while i != 0 {
        if !may_come::<P>(view, scratch, chain, i) {
            return None;
        }
        marks::mark(scratch, P::base(view.header) + (i - 1) as usize);
        count += 1;
        last = i;
        i = view.word::<P>(i, layout::TO_NEXT);
    }
    Some(Walked { count, last })
}

// The walk of chain j. Which chain it is stands in the part's impl as a literal, so that the compiler makes a loop of its own for each kind.
fn walk_on<P: Chained>(view: &View, scratch: &mut [u8], j: u32) -> Option<Walked>
    requires { Walkable view.now.words.now scratch.old view.now.header × (j < reach_of (shape_in view.now.header) P.faults) }
    ensures { DidWalk (walk_in (shape_in view.now.header) view.now.words.now P.faults (chain_of P.faults j) scratch.old (first_of (shape_in view.now.header) view.now.words.now P.faults j)) result scratch.new }
{
    let first = P::first_of(view, j);
    walk::<P>(view, scratch, P::chain(j), first)
}

// The walks of chains 0 to n - 1, one after the other over the same marks: how many cells they met.
pub fn walk_all<P: Chained>(view: &View, scratch: &mut [u8], n: u32) -> Option<u32>
    requires { Walkable view.now.words.now scratch.old view.now.header × (n ≤ reach_of (shape_in view.now.header) P.faults) }
    ensures { DidWalks (chains_of (shape_in view.now.header) view.now.words.now P.faults n scratch.old) result scratch.new }
{
    let mut total: u32 = 0;
    for j in 0..n {
        let t = walk_on::<P>(view, scratch, j)?;
        if !P::end_fits(view, j, t.count, t.last) {
            return None;
        }
        total += t.count;
    }
    Some(total)
}
