// The report over the files of several stores.
ghost use Rattle.std.specs.Prelude.{◌≡◌, map, ◌*◌, ◌≤◌, length};
ghost use Rattle.model.specs.Report.{most_stores};
ghost use Rattle.store.specs.Leaves.{wrote_of};
ghost use Rattle.disk.specs.Bytes.{words_of};
ghost use Rattle.disk.specs.Desk.{most_words};
ghost use Rattle.disk.specs.Report.{words_in, sizes_ok, report_on, desk_report, Reports};

use crate::{WORDS, room, sized, words};
use store::Refusal;

// The most files, and their words.
pub const FILES: usize = 8;

const ALL_WORDS: usize = FILES * WORDS;

// Of the bytes one more, which tells that the last file is too long.
const ALL_FILES: usize = 4 * ALL_WORDS + 1;

// The longest text: 55 bytes for each of 9,999 codes, and 44 for the totals.
const TEXT: usize = 55 * 9999 + 44;

// Room for the bytes of all files, and one byte more, which tells that the last is too long.
pub fn files_room() -> [u8; ALL_FILES]
    ensures { 500737 ≡ length result }
{
    room()
}

// Room for the text of any report.
pub fn output() -> [u8; TEXT]
    ensures { 549989 ≡ length result }
{
    room()
}

// Whether each size is one that a store's file can have, and they add up.
fn sizes_ok(whole: usize, sizes: &[u32]) -> bool
    requires { length sizes.now ≤ most_stores }
    ensures { result ≡ sizes_ok whole sizes.now }
{
    sizes.iter().all(|size| sized(*size as usize))
        && sizes.iter().map(|size| *size as usize).sum::<usize>() == whole
}

// The words of each file.
fn lengths_of(sizes: &[u32], lengths: &mut [u32])
    requires { length sizes.now ≡ length lengths.old }
    ensures { lengths.new ≡ map words_in sizes.now }
{
    for (i, size) in sizes.iter().enumerate() {
        lengths[i] = size / 4;
    }
}

// The report over words that are read, with their lengths: the bytes written.
fn report_on(words: &[u32], lengths: &[u32], out: &mut [u8]) -> Result<u32, Refusal>
    ensures { Reports (report_on words.now lengths.now out.old) (wrote_of result) out.new }
{
    let mut scratch = [0u8; store::NEED];
    report::report(words, lengths, &mut scratch, out)
}

// The report over files, with room for their words.
fn report_in(files: &[u8], words: &mut [u32], sizes: &[u32], out: &mut [u8]) -> Result<u32, Refusal>
    requires { (length files.now ≡ 4 * length words.old) × (length sizes.now ≤ most_stores) }
    ensures { Reports (report_on (words_of files.now) (map words_in sizes.now) out.old) (wrote_of result) out.new }
{
    words::read(files, words);
    let mut lengths = [0u32; FILES];
    let n = sizes.len();
    lengths_of(sizes, &mut lengths[..n]);
    report_on(words, &lengths[..n], out)
}

// The report over files that stand one behind another, each as long as the list says, and the bytes written. Refused for no file or more than eight,
// for sizes that are no stores' or do not add up, for a store that is not sound, and where the output is too short; then nothing is written.
pub fn report_files(files: &[u8], sizes: &[u32], out: &mut [u8]) -> Result<u32, Refusal>
    ensures { Reports (desk_report files.now sizes.now out.old) (wrote_of result) out.new }
{
    if !(1..=FILES).contains(&sizes.len()) {
        return Err(Refusal::BadStores);
    }
    if !sizes_ok(files.len(), sizes) {
        return Err(Refusal::NotSound);
    }
    let k = files.len() / 4;
    let mut space: [u32; ALL_WORDS] = room();
    report_in(files, &mut space[..k], sizes, out)
}
