// The code of a serial, the address rule, the load rules and the states of a table, below the store. The C host of the
// reader calls `reader_code` and `reader_address` directly.
#![tactic(auto)]

ghost use Rattle.std.specs.Prelude.{◌≡◌, ◌+◌, ◌*◌, ◌<◌, ◌≤◌, ◌||◌, take, ◌==◌, nat_le};
ghost use Rattle.rules.specs.Code.{code_step, code_of};
ghost use Rattle.rules.specs.Table.{least, top, state_ok, address_of, splits, contracts, load_fits, high_maxp, high_p, low_maxp, low_p};

// The most bytes of a serial; it travels in as many.
pub const SERIAL: usize = 16;

// The fewest and the most buckets of a table.
pub const LEAST: u32 = 16;

pub const TOP: u32 = 256;

// The address where (maxp, p) is no state of the table.
// Kept: the C interface gives it as a number, so that it is no Option.
const NO_ADDRESS: u32 = 4294967295;

// The code with one byte more: 33 times the code by wrapping additions, and the byte added last.
pub fn code_step(code: u32, byte: u8) -> u32
    ensures { result ≡ code_step code byte }
{
    let c2 = code.wrapping_add(code);
    let c4 = c2.wrapping_add(c2);
    let c8 = c4.wrapping_add(c4);
    let c16 = c8.wrapping_add(c8);
    let c32 = c16.wrapping_add(c16);
    let c33 = c32.wrapping_add(code);
    c33.wrapping_add(u32::from(byte))
}

// The code of a byte slice, of any length.
#[unsafe(no_mangle)]
pub extern "C" fn reader_code(bytes: &[u8]) -> u32
    ensures { result ≡ code_of bytes.now }
{
    let mut code: u32 = 0;
    for byte in bytes {
        code = code_step(code, *byte);
    }
    code
}

// The code of a serial that travels as sixteen bytes and its length; a length past 16 counts as 16.
// Kept: a rule of the project, that a serial travels as `[u8; 16]` by value beside its length.
// Kept: tried as `&serial[..len.min(SERIAL)]`, and the test of a full store took 10 % more instructions.
pub fn serial_code(serial: [u8; 16], len: usize) -> u32
    ensures { result ≡ code_of (take len serial) }
{
    if len <= SERIAL {
        reader_code(&serial[..len])
    } else {
        reader_code(&serial)
    }
}

// Whether (maxp, p) is a state of a table of at most `top` buckets.
// Kept: no plainer, since two numbers that may be no state are no `State` yet.
#[tactic(auto, unfolding(crate::specs::Table::state_ok, crate::specs::Table::size_ok))]
pub fn state_ok(top: u32, maxp: u32, p: u32) -> bool
    ensures { result ≡ state_ok top maxp p }
{
    match maxp {
        16 | 32 | 64 | 128 | 256 => p < maxp && maxp + p <= top,
        _ => false,
    }
}

// The address of a code, or 4294967295 where (maxp, p) is no state of the table.
// Kept: the C interface passes maxp and p as two numbers.
#[tactic(auto, unfolding(crate::specs::Table::address_of, crate::specs::Table::bucket_of, crate::specs::Table::state_ok, crate::specs::Table::size_ok))]
#[unsafe(no_mangle)]
pub extern "C" fn reader_address(code: u32, maxp: u32, p: u32) -> u32
    ensures { result ≡ address_of code maxp p }
{
    if state_ok(TOP, maxp, p) {
        let a = code % maxp;
        if a < p { code % (2 * maxp) } else { a }
    } else {
        NO_ADDRESS
    }
}

// Kept: no plainer, since each of the next five reads other ones of the bounds, and a struct of all three says less of what it reads.

// Whether n cards in b buckets call for a split: more than `upper` a bucket, and fewer than `top` buckets.
#[tactic(auto, unfolding(crate::specs::Table::splits))]
pub fn must_split(top: u32, upper: u32, n: u32, b: u32) -> bool
    ensures { result ≡ splits top upper n b }
{
    (upper as u64) * (b as u64) < n as u64 && b < top
}

// Whether n cards in b buckets call for a contraction: fewer than `lower` a bucket, and more than 16 buckets.
#[tactic(auto, unfolding(crate::specs::Table::contracts))]
pub fn must_contract(lower: u32, n: u32, b: u32) -> bool
    ensures { result ≡ contracts lower n b }
{
    (n as u64) < (lower as u64) * (b as u64) && LEAST < b
}

// Whether n cards are not too many for b buckets: at most `upper` a bucket, or all `top` buckets are there.
fn not_over(top: u32, upper: u32, n: u32, b: u32) -> bool
    ensures { result ≡ (b == top || nat_le n (upper * b)) }
{
    b == top || n as u64 <= (upper as u64) * (b as u64)
}

// Whether n cards are not too few for b buckets: at least `lower` a bucket, or no more buckets than the fewest.
fn not_under(lower: u32, n: u32, b: u32) -> bool
    ensures { result ≡ (b == least || nat_le (lower * b) n) }
{
    b == LEAST || (lower as u64) * (b as u64) <= n as u64
}

// Whether a table keeps n cards in b buckets as they are.
#[tactic(auto, unfolding(crate::specs::Table::load_fits))]
pub fn load_fits(top: u32, upper: u32, lower: u32, n: u32, b: u32) -> bool
    ensures { result ≡ load_fits top upper lower n b }
{
    not_over(top, upper, n, b) && not_under(lower, n, b)
}

// The state of a table, which has maxp + p buckets.
#[derive(Clone, Copy, PartialEq, Eq, Debug)]
pub struct State {
    pub maxp: u32,
    pub p: u32,
}

impl State {
    // The state with one bucket more: p grows by 1; if p = maxp, maxp doubles and p is 0.
    #[tactic(auto, unfolding(crate::specs::Table::high_maxp, crate::specs::Table::high_p))]
    pub fn grown(self) -> State
        requires { self.maxp + self.p < top }
        ensures maxp { result.maxp ≡ high_maxp self.maxp self.p }
        ensures p { result.p ≡ high_p self.maxp self.p }
    {
        let State { maxp, p } = self;
        if p + 1 == maxp {
            State {
                maxp: 2 * maxp,
                p: 0,
            }
        } else {
            State { maxp, p: p + 1 }
        }
    }

    // The state with one bucket less: p falls by 1; if it was 0, maxp halves and p is the new maxp - 1.
    #[tactic(auto, unfolding(crate::specs::Table::low_maxp, crate::specs::Table::low_p))]
    pub fn shrunk(self) -> State
        ensures maxp { result.maxp ≡ low_maxp self.maxp self.p }
        ensures p { result.p ≡ low_p self.maxp self.p }
    {
        let State { maxp, p } = self;
        if p == 0 {
            let half = maxp / 2;
            State {
                maxp: half,
                p: half.saturating_sub(1),
            }
        } else {
            State { maxp, p: p - 1 }
        }
    }
}
