// Marks of visited cells, one bit a cell, in scratch that the caller lends.
ghost use Rattle.std.specs.Prelude.{◌≡◌, ◌*◌, ◌<◌, ◌≤◌, length};
ghost use Rattle.model.specs.Calls.{cleaned};
ghost use Rattle.checker.specs.Marks.{mark_at, marked_at};

// Whether the bit of number k is set: bit k % 8 of byte k / 8.
pub fn is_marked(scratch: &[u8], k: usize) -> bool
    requires { k < 8 * length scratch.now }
    ensures { result ≡ mark_at scratch.now k }
{
    let mask: u8 = 1 << (k % 8);
    (scratch[k / 8] & mask) != 0
}

// Sets the bit of number k, and leaves every other bit.
pub fn mark(scratch: &mut [u8], k: usize)
    requires { k < 8 * length scratch.old }
    ensures { scratch.new ≡ marked_at scratch.old k }
{
    let mask: u8 = 1 << (k % 8);
    scratch[k / 8] |= mask;
}

// The first n bytes are zero, and the rest is as it was.
// Kept: a part of the scratch in the place of its n would change a public function, which the store calls and docs/RULES.md names.
pub fn clear(scratch: &mut [u8], n: usize)
    requires { n ≤ length scratch.old }
    ensures { scratch.new ≡ cleaned n scratch.old }
{
    scratch[..n].fill(0);
}
