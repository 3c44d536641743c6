// What a file holds, and that as text.
ghost use Rattle.std.specs.Prelude.{◌≡◌, true, ◌*◌, ◌≤◌, length};
ghost use Rattle.model.specs.Layout.{sound};
ghost use Rattle.text.specs.Decimals.{Puts};
ghost use Rattle.disk.specs.Bytes.{words_of};
ghost use Rattle.disk.specs.Check.{told, seen_by, desk_check, sound_text, check_text, check_size, told_in, seen_in, number_for, Looks};

use crate::{WORDS, room, sized, texts, words};
use text::sink::{Sink, Writer, put_text};

// Room for the text.
pub const TEXT: usize = 256;

// What a sound store tells: its limits, its bounds and its counts.
#[derive(Clone, Copy)]
pub struct Seen {
    pub cards: u32,
    pub faults: u32,
    pub upper: u32,
    pub lower: u32,
    pub held: u32,
    pub filed: u32,
    pub buckets: u32,
}

// What the words of a store known to be sound tell.
fn see_sound(w: &[u32]) -> Seen
    requires { sound w.now ≡ true }
    ensures { told_in result ≡ told w.now }
{
    let h = store::header_of(w);
    Seen {
        cards: h.cards,
        faults: h.faults,
        upper: h.upper,
        lower: h.lower,
        held: w[store::HELD_AT],
        filed: w[store::FAULTS_HELD_AT],
        buckets: store::buckets(w),
    }
}

// What the bytes of a file tell, with room for its words.
fn see_in(file: &[u8], words: &mut [u32]) -> Option<Seen>
    requires { length file.now ≡ 4 * length words.old }
    ensures { seen_in result ≡ seen_by (words_of file.now) }
{
    words::read(file, words);
    let mut scratch = [0u8; store::NEED];
    if store::check(words, &mut scratch) {
        Some(see_sound(words))
    } else {
        None
    }
}

// What a file tells, where it is a sound store.
pub fn see(file: &[u8]) -> Option<Seen>
    ensures { seen_in result ≡ desk_check file.now }
{
    if !sized(file.len()) {
        return None;
    }
    let k = file.len() / 4;
    let mut space: [u32; WORDS] = room();
    see_in(file, &mut space[..k])
}

// The five lines of a sound store.
fn put_sound<S: Sink>(sink: &mut S, s: Seen)
    requires { length (sound_text (told_in s)) ≤ S.room sink.old }
    ensures { S.Takes sink.old (sound_text (told_in s)) sink.new }
{
    put_text(sink, b"sound\n");
    texts::put_pair(sink, b"cards ", s.held, b" of ", s.cards);
    texts::put_pair(sink, b"faults ", s.filed, b" of ", s.faults);
    put_text(sink, b"buckets ");
    texts::put_line(sink, s.buckets);
    texts::put_pair(sink, b"bounds ", s.upper, b" ", s.lower);
}

// What is told, as text.
fn put_seen<S: Sink>(sink: &mut S, seen: Option<Seen>)
    requires { length (check_text (seen_in seen)) ≤ S.room sink.old }
    ensures { S.Takes sink.old (check_text (seen_in seen)) sink.new }
{
    match seen {
        Some(s) => put_sound(sink, s),
        None => put_text(sink, b"not sound\n"),
    }
}

// The same at the front of an output; the place behind it.
fn write_seen(out: &mut [u8], seen: Option<Seen>) -> usize
    requires { check_size ≤ length out.old }
    ensures { Puts out.old 0 (check_text (seen_in seen)) result out.new }
{
    let mut writer = Writer { out, at: 0 };
    put_seen(&mut writer, seen);
    writer.at
}

// Whether a file is a sound store, and how long its text is.
#[derive(Clone, Copy)]
pub struct Looked {
    pub sound: bool,
    pub len: usize,
}

// What a file holds, as text.
pub fn look(file: &[u8], out: &mut [u8]) -> Looked
    requires { check_size ≤ length out.old }
    ensures { Looks (desk_check file.now) out.old (number_for result.sound) result.len out.new }
{
    let seen = see(file);
    Looked {
        sound: seen.is_some(),
        len: write_seen(out, seen),
    }
}
