// The cards of a store one after another: buckets by address, cards by chain.
ghost use Rattle.std.specs.Prelude.{◌≡◌};
ghost use Rattle.model.specs.Layout.{decode};
ghost use Rattle.store.specs.Order.{place_of, head_from, Comes, Follows};

use crate::stores::Sound;
use reads::layout;

// A card's bucket and cell.
#[derive(Clone, Copy)]
pub struct At {
    pub bucket: u32,
    pub cell: u32,
}

// The first card of the buckets from b on.
fn from_bucket(store: &Sound, b: u32) -> Option<At>
    ensures { result ≡ head_from (decode store.now.view.words.now) b }
{
    for bucket in b..store.view.header.maxp + store.view.header.p {
        let cell = store.view.bucket_word(bucket);
        if cell != 0 {
            return Some(At { bucket, cell });
        }
    }
    None
}

// The first card of a store.
pub fn first_card(store: &Sound) -> Option<At>
    ensures { result ≡ place_of (decode store.now.view.words.now) 0 }
{
    from_bucket(store, 0)
}

// The card behind one of its cards.
pub fn next_card(store: &Sound, at: At) -> Option<At>
    requires { Comes (decode store.now.view.words.now) at }
    ensures { Follows (decode store.now.view.words.now) at result }
{
    let cell = store.view.card_word(at.cell, layout::TO_NEXT);
    if cell != 0 {
        return Some(At { cell, ..at });
    }
    from_bucket(store, at.bucket + 1)
}
