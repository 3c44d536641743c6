// A fresh store, written part by part: each part of the words is lent to a writer that knows that part alone.
ghost use Rattle.std.specs.Prelude.{◌≡◌, true, ◌++◌, ◌*◌, ◌<◌, length, replicate};
ghost use Rattle.model.specs.Model.{fresh};
ghost use Rattle.model.specs.Layout.{directory_at, segments_at, header, directory, shape_ok, length_for, encode};
ghost use Rattle.reads.specs.Cells.{shape_by};
ghost use Rattle.writer.specs.Fresh.{behind, leading, cells_to};

use reads::layout;
use reads::layout::Shape;

// Words 0 to 15 of a fresh store.
fn fresh_header(s: Shape) -> [u32; layout::HEADER]
    requires { shape_ok (shape_by s) ≡ true }
    ensures { result ≡ header (fresh (shape_by s)) }
{
    let segments = layout::segments_at(s);
    let base = layout::cards_at(s);
    let behind = layout::faults_at(s);
    let end = layout::length_for(s);
    let bounds = layout::bounds_word(s);
    let rule = layout::rule_word(s);
    [
        s.format,
        s.cards,
        s.faults,
        layout::LEAST,
        0,
        0,
        0,
        1,
        1,
        layout::DIRECTORY_AT as u32,
        segments as u32,
        base as u32,
        behind as u32,
        end as u32,
        bounds,
        rule,
    ]
}

// One word, and zeros behind it: a free cell, and the directory of a single segment.
fn put_first(part: &mut [u32], first: u32)
    requires { 0 < length part.old }
    ensures { part.new ≡ leading (length part.old) first }
{
    part.fill(0);
    part[0] = first;
}

// The cell behind cell i of n, 0 behind the last.
fn next_of(i: u32, n: u32) -> u32
    ensures { result ≡ behind n i }
{
    if i < n { i + 1 } else { 0 }
}

// Free cells of one width, chained 1, 2, 3 to the last.
fn fill_cells(part: &mut [u32], width: usize, n: u32)
    requires { (0 < width) × (length part.old ≡ width * n) }
    ensures { part.new ≡ cells_to width n n }
{
    for i in 0..n {
        let at = width * i as usize;
        put_first(&mut part[at..at + width], next_of(i + 1, n));
    }
}

// Header and directory: the first segment is in use, and no other.
fn fill_head(part: &mut [u32], s: Shape)
    requires { (shape_ok (shape_by s) ≡ true) × (length part.old ≡ segments_at (shape_by s)) }
    ensures { part.new ≡ header (fresh (shape_by s)) ++ directory (fresh (shape_by s)) }
{
    let row = fresh_header(s);
    let segments = layout::segments_at(s) as u32;
    part[0..layout::DIRECTORY_AT].copy_from_slice(&row);
    put_first(&mut part[layout::DIRECTORY_AT..], segments);
}

// All words of a fresh store: its parts are lent on one after the other, from where they begin.
pub fn fill(words: &mut [u32], s: Shape)
    requires { (shape_ok (shape_by s) ≡ true) × (length words.old ≡ length_for (shape_by s)) }
    ensures { words.new ≡ encode (fresh (shape_by s)) }
{
    let segments = layout::segments_at(s);
    let base = layout::cards_at(s);
    let behind = layout::faults_at(s);
    let width = layout::card_width(s);
    let cards = s.cards;
    let faults = s.faults;
    fill_head(&mut words[0..segments], s);
    words[segments..base].fill(0);
    fill_cells(&mut words[base..behind], width, cards);
    fill_cells(&mut words[behind..], layout::FAULT_WIDTH, faults);
}
