// The tally: accepted entries, withdrawals and filings, splits, contractions and comparisons, each held at
// the top instead of passing it. It goes in by value and comes back.
ghost use Rattle.std.specs.Prelude.{◌≡◌};
ghost use Rattle.model.specs.Job.{plus, one};
ghost use Rattle.job.specs.Counts.{tally_of, entering, withdrawing, filing, counted_by};

use super::fields::Request;

#[repr(C)]
#[derive(Clone, Copy, Debug, Default, PartialEq, Eq)]
pub struct Tally {
    pub entries: u64,
    pub withdrawals: u64,
    pub filings: u64,
    pub splits: u64,
    pub contractions: u64,
    pub comparisons: u64,
}

// The sum, or the top.
pub fn plus(a: u64, b: u64) -> u64
    ensures { result ≡ plus a b }
{
    a.saturating_add(b)
}

// How many entries, withdrawals and filings a line is: one of one kind, if it is done.
#[tactic(auto, unfolding(crate::specs::Counts::entering, crate::specs::Counts::withdrawing, crate::specs::Counts::filing, model::specs::Job::one))]
fn kinds(done: Option<Request>) -> (u64, u64, u64)
    ensures entries { result.0 ≡ one (entering done) }
    ensures withdrawals { result.1 ≡ one (withdrawing done) }
    ensures filings { result.2 ≡ one (filing done) }
{
    match done {
        Some(Request::Enter(_)) => (1, 0, 0),
        Some(Request::Withdraw(_)) => (0, 1, 0),
        Some(Request::File(..)) => (0, 0, 1),
        Some(Request::Show(_)) => (0, 0, 0),
        None => (0, 0, 0),
    }
}

// The tally after an answered line: what was done, if it was not refused, the buckets before and after it, its comparisons.
pub fn count(t: Tally, done: Option<Request>, before: u32, after: u32, comparisons: u32) -> Tally
    ensures { tally_of result ≡ counted_by (tally_of t) done before after comparisons }
{
    let (entries, withdrawals, filings) = kinds(done);
    Tally {
        entries: plus(t.entries, entries),
        withdrawals: plus(t.withdrawals, withdrawals),
        filings: plus(t.filings, filings),
        splits: plus(t.splits, u64::from(before < after)),
        contractions: plus(t.contractions, u64::from(after < before)),
        comparisons: plus(t.comparisons, u64::from(comparisons)),
    }
}
