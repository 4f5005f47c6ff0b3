// Operations on runs of bytes: copy, set, compare and repeat.
ghost use Rattle.std.specs.Prelude.{◌≡◌, ◌+◌, ◌*◌, ◌≤◌, ◌<◌, length, replicate};
ghost use Rattle.std.proofs.lemmas.List.Edits.{sets};
ghost use Rattle.wire.specs.Numbers.{le};
ghost use Rattle.wire.specs.Parts.{part, zeros, repeated};
ghost use Rattle.wire.specs.Bytes.{same, all_zero};

use wire::Number;

// Copies the n bytes of src from `from` into dst from `at`. The copy is a loop: `copy_from_slice` calls memmove, which the firmware need not have.
pub fn copy_part(dst: &mut [u8], at: usize, src: &[u8], from: usize, n: usize)
    requires { (at + n ≤ length dst.old) × (from + n ≤ length src.now) }
    ensures { dst.new ≡ sets dst.old at (part src.now from n) }
{
    for j in 0..n {
        dst[at + j] = src[from + j];
    }
}

// Copies the n bytes from `from` to a place after them in the same run.
pub fn copy_within(s: &mut [u8], to: usize, from: usize, n: usize)
    requires { (from + n ≤ to) × (to + n ≤ length s.old) }
    ensures { s.new ≡ sets s.old to (part s.old from n) }
{
    s.copy_within(from..from + n, to);
}

// Sets the n bytes from `at` to b.
pub fn set_part(s: &mut [u8], at: usize, n: usize, b: u8)
    requires { at + n ≤ length s.old }
    ensures { s.new ≡ sets s.old at (replicate n b) }
{
    s[at..at + n].fill(b);
}

// Sets the n bytes from `at` to 0.
pub fn zero_part(s: &mut [u8], at: usize, n: usize)
    requires { at + n ≤ length s.old }
    ensures { s.new ≡ sets s.old at (zeros n) }
{
    set_part(s, at, n, 0);
}

// Whether the n bytes from `from` are all 0. It reads every byte: such a loop handles sixteen bytes at a time. It is no chain of iterators, whose
// types .ci/check-arrays does not know.
pub fn is_zero(s: &[u8], from: usize, n: usize) -> bool
    requires { from + n ≤ length s.now }
    ensures { result ≡ all_zero (part s.now from n) }
{
    let mut all = true;
    for j in 0..n {
        all = all & (s[from + j] == 0);
    }
    all
}

// Whether the n bytes of a from `at` are those of b from `from`. It reads every byte, as is_zero does: `==` would be a call, and then the recursion
// of crate image takes stack.
pub fn same_part(a: &[u8], at: usize, b: &[u8], from: usize, n: usize) -> bool
    requires { (at + n ≤ length a.now) × (from + n ≤ length b.now) }
    ensures { result ≡ same (part a.now at n) (part b.now from n) }
{
    let mut all = true;
    for j in 0..n {
        all = all & (a[at + j] == b[from + j]);
    }
    all
}

// Writes the bytes of a number the given number of times, one after the other, from `at`.
pub fn repeat<N: Number>(s: &mut [u8], at: usize, n: N, times: usize)
    requires { at + N.SIZE * times ≤ length s.old }
    ensures { s.new ≡ sets s.old at (repeated times (le N.SIZE (N.value n))) }
{
    for k in 0..times {
        n.put(s, at + N::SIZE * k);
    }
}

// Writes the four bytes from `from` the given number of times, one after the other, from `to`.
pub fn repeat_within(s: &mut [u8], to: usize, from: usize, times: usize)
    requires { (from + 4 ≤ to) × (to + 4 * times ≤ length s.old) }
    ensures { s.new ≡ sets s.old to (repeated times (part s.old from 4)) }
{
    let word = u32::get(s, from);
    repeat(s, to, word, times);
}
