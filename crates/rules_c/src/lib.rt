// The exports of the two rules of the table, for C: the serial code and the address rule, in an archive of their own. Each function hands on
// to that of `rules`, under the same contract; include/reader.h says what a caller has to keep.
#![tactic(auto)]

ghost use Rattle.std.specs.Prelude.{◌≡◌};
ghost use Rattle.rules.specs.Code.{code_of};
ghost use Rattle.rules.specs.Table.{address_of};

// The code of a byte slice, of any length.
#[unsafe(no_mangle)]
pub extern "C" fn reader_code(bytes: &[u8]) -> u32
    ensures { result ≡ code_of bytes.now }
{
    rules::reader_code(bytes)
}

// The address of a code, or 4294967295 where (maxp, p) is no state of the table.
#[unsafe(no_mangle)]
pub extern "C" fn reader_address(code: u32, maxp: u32, p: u32) -> u32
    ensures { result ≡ address_of code maxp p }
{
    rules::reader_address(code, maxp, p)
}
