// Faults by code: one report over up to eight stores, which stand one behind another in one run of words.
#![tactic(auto)]

ghost use Rattle.std.specs.Prelude.{◌≡◌, true, ◌≤◌, length};
ghost use Rattle.model.specs.Report.{most_stores, pieces, run_sound, all_histories, report_text, report_call};
ghost use Rattle.report.specs.Texts.{PutsReport};
ghost use Rattle.report.specs.Reports.{Reports};
ghost use Rattle.store.specs.Leaves.{wrote_of};

mod rows; // rows.rt: a row for each code, in which every fault is noted once
mod runs; // runs.rt: stores one behind another in one run of words
mod texts; // texts.rt: the lines of the codes and the totals
mod totals; // totals.rt: the cards and the entries of the stores so far

use rows::Row;
use store::Refusal;

// The report over a run of stores that are known to be sound: the bytes written.
pub fn report_sound(words: &[u32], lengths: &[u32], out: &mut [u8]) -> Result<u32, Refusal>
    requires { (run_sound words.now lengths.now ≡ true) × (length lengths.now ≤ most_stores) }
    ensures { PutsReport (report_text (all_histories (pieces words.now lengths.now))) out.old (wrote_of result) out.new }
{
    let mut noted = [Row::BLANK; rows::ROWS];
    let t = runs::note_all(words, lengths, &mut noted);
    texts::put_report(out, &noted, t)
}

// The report over the stores of a run, each as long as the list says, and the bytes written. Refused where the scratch is too short, then for no
// store or more than eight, then for lengths that do not add up to the run or a store that is not sound, then where the output is too short; then
// nothing is written.
pub fn report(
    words: &[u32],
    lengths: &[u32],
    scratch: &mut [u8],
    out: &mut [u8],
) -> Result<u32, Refusal>
    ensures { Reports (report_call words.now lengths.now scratch.old out.old) (wrote_of result) out.new scratch.new }
{
    let n = runs::need_of(words, lengths);
    if scratch.len() < n {
        return Err(Refusal::ShortScratch);
    }
    store::clear(scratch, n);
    if !(1..=runs::MOST_STORES).contains(&lengths.len()) {
        return Err(Refusal::BadStores);
    }
    if !runs::all_sound(words, lengths, scratch) {
        return Err(Refusal::NotSound);
    }
    report_sound(words, lengths, out)
}
