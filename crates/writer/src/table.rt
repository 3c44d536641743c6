// The table with one bucket more and one less: Larson's split of a chain in two, and the contraction that joins the two again.
ghost use Rattle.std.specs.Prelude.{◌≡◌, ◌+◌, ◌≤◌, ◌<◌, length, get_or, set};
ghost use Rattle.rules.specs.Table.{top, low_p};
ghost use Rattle.model.specs.Model.{grown, shrunk};
ghost use Rattle.model.specs.Layout.{held_at, maxp_at, p_at, directory_at, encode, decode};
ghost use Rattle.model.specs.Meaning.{next_card, bucket_word};
ghost use Rattle.model.specs.Words.{moves_at, part_words, split_words, join_words};
ghost use Rattle.reads.specs.Cells.{shape_in, Sized, Read};
ghost use Rattle.reads.specs.Chains.{Ends};
ghost use Rattle.writer.specs.Table.{MaySplit, MayJoin, segment_set, last_from, last_of, Fairly};

use crate::writes;
use reads::cells::View;
use reads::header::Header;
use reads::{header, layout};
use rules::State;

// Whether the card in cell i goes to the new bucket maxp + p.
fn moves(view: &View, i: u32) -> bool
    requires { (1 ≤ view.now.header.maxp) × (view.now.header.maxp + view.now.header.p < top) × (1 ≤ i) × (i ≤ view.now.header.cards) }
    ensures { result ≡ moves_at (shape_in view.now.header) view.now.words.now view.now.header.maxp view.now.header.p i }
{
    let maxp = view.header.maxp;
    let p = view.header.p;
    let len = view.card_word(i, layout::TO_LENGTH) as usize;
    let code = rules::serial_code(view.bytes_at(i), len);
    code % (2 * maxp) == maxp + p
}

// One pass over bucket p's chain: each cell goes behind the last one that stays, k, or the last one that goes, g, so both
// chains keep their order. A cell's next word is read before anything behind it is written.
fn part(w: &mut [u32], h: Header)
    requires { MaySplit w.old h }
    ensures { w.new ≡ part_words h.cards (shape_in h) h.maxp h.p w.old 0 0 (bucket_word (shape_in h) w.old h.p) }
{
    let maxp = h.maxp;
    let p = h.p;
    let n = maxp + p;
    let mut x = View {
        words: w,
        header: h,
    }
    .bucket_word(p);
    let mut k: u32 = 0;
    let mut g: u32 = 0;
    // Kept: no plainer, since this goes along a chain of cells by their next words and no index is counted by hand.
    while x != 0 {
        let view = View {
            words: w,
            header: h,
        };
        let next = view.card_word(x, layout::TO_NEXT);
        if moves(&view, x) {
            writes::link(w, h, n, g, x);
            g = x;
        } else {
            writes::link(w, h, p, k, x);
            k = x;
        }
        x = next;
    }
    writes::link(w, h, p, k, 0);
    writes::link(w, h, n, g, 0);
}

// A segment is taken, and freed, with its first bucket: where bucket n is that, its word of the directory becomes v.
fn set_segment(w: &mut [u32], h: Header, n: u32, v: u32)
    requires { Sized w.old h × (n < h.top) }
    ensures { w.new ≡ segment_set w.old n v }
{
    if n % layout::SEGMENT_SIZE == 0 {
        w[layout::DIRECTORY_AT + (n / layout::SEGMENT_SIZE) as usize] = v;
    }
}

// maxp and p, words 3 and 4 of the header.
fn set_state(w: &mut [u32], state: State)
    requires { directory_at ≤ length w.old }
    ensures { w.new ≡ set (set w.old maxp_at state.maxp) p_at state.p }
{
    w[layout::MAXP_AT] = state.maxp;
    w[layout::P_AT] = state.p;
}

// One bucket more: the chain of bucket p is parted, the new bucket's segment is taken if it is the first there, p grows.
pub fn split(w: &mut [u32], h: Header)
    requires { MaySplit w.old h }
    ensures { w.new ≡ split_words (shape_in h) w.old }
{
    let n = h.maxp + h.p;
    part(w, h);
    set_segment(w, h, n, h.segments as u32 + n);
    let state = State {
        maxp: h.maxp,
        p: h.p,
    };
    set_state(w, state.grown());
}

// The last cell of bucket b's chain, 0 for none.
fn last_of(view: &View, b: u32) -> u32
    requires { (b < view.now.header.top) × Ends view.now.header.cards (next_card (shape_in view.now.header) view.now.words.now) (bucket_word (shape_in view.now.header) view.now.words.now b) }
    ensures { result ≡ last_from (shape_in view.now.header) view.now.words.now (bucket_word (shape_in view.now.header) view.now.words.now b) }
{
    let mut i = view.bucket_word(b);
    let mut last: u32 = 0;
    // Kept: no plainer, since this goes along a chain of cells by their next words and no index is counted by hand.
    while i != 0 {
        last = i;
        i = view.card_word(i, layout::TO_NEXT);
    }
    last
}

// One bucket less: the last bucket's chain goes behind the chain that it was split from, its own word becomes 0, and its
// segment is freed if it was the first there.
pub fn join(w: &mut [u32], h: Header)
    requires { MayJoin w.old h }
    ensures { w.new ≡ join_words (shape_in h) w.old (last_of (shape_in h) w.old (low_p h.maxp h.p)) }
{
    let before = State {
        maxp: h.maxp,
        p: h.p,
    };
    let state = before.shrunk();
    let b = state.p;
    let going = h.maxp + h.p - 1;
    let view = View {
        words: w,
        header: h,
    };
    let k = last_of(&view, b);
    let first = view.bucket_word(going);
    writes::link(w, h, b, k, first);
    writes::put_bucket(w, h, going, 0);
    set_segment(w, h, going, 0);
    set_state(w, state);
}

// After an accepted entry, with n cards held: one bucket more if they are more than `upper` a bucket.
pub fn grow(w: &mut [u32], h: Header, n: u32)
    requires { Fairly w.old × Read w.old h × (n ≡ get_or w.old held_at 0) }
    ensures { w.new ≡ encode (grown (decode w.old)) }
{
    if rules::must_split(h.top, h.upper, n, h.maxp + h.p) {
        split(w, h);
    }
}

// After an accepted withdrawal: one bucket less if there are fewer than `lower` cards a bucket, and more than 16 buckets.
pub fn shrink(w: &mut [u32], h: Header)
    requires { Fairly w.old × Read w.old h }
    ensures { w.new ≡ encode (shrunk (decode w.old)) }
{
    let n = header::word(w, layout::HELD_AT);
    if rules::must_contract(h.lower, n, h.maxp + h.p) {
        join(w, h);
    }
}
