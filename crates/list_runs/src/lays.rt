// Words and lengths laid by hand.
use script::lines::Line;
use script::words::{set, word};

// What stands from one place to another, as far as it is there.
pub fn part<T>(items: &mut [T], from: u32, to: u32) -> &mut [T] {
    let to = (to as usize).min(items.len());
    let from = (from as usize).min(to);
    &mut items[from..to]
}

// The words from one place to another are 0.
pub fn clear(words: &mut [u32], from: u32, to: u32) {
    part(words, from, to).fill(0);
}

// So many words are copied from one place to another, the first one first; one that is not there is 0.
pub fn copy(words: &mut [u32], from: u32, to: u32, count: u32) {
    for k in 0..count {
        let value = word(words, from.wrapping_add(k) as usize);
        set(words, to.wrapping_add(k) as usize, value);
    }
}

// Where a series of words begins and with which value, and the steps to the next.
#[derive(Clone, Copy)]
pub struct Series {
    at: u32,
    stride: u32,
    value: u32,
    step: u32,
}

impl Series {
    pub fn of_line(line: Line) -> Series {
        Series {
            at: line.number(1),
            stride: line.number(3),
            value: line.number(4),
            step: line.number(5),
        }
    }
}

pub fn patch(words: &mut [u32], count: u32, first: Series) {
    let Series {
        mut at,
        stride,
        mut value,
        step,
    } = first;
    for _ in 0..count {
        set(words, at as usize, value);
        at = at.wrapping_add(stride);
        value = value.wrapping_add(step);
    }
}
