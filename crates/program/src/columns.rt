// A place opened and closed in a column.
// Kept: `n`, how many of the numbers are rows that count, stands beside the column. Behind them are others, so that a
// caller that cut the column would write `&mut self.keys[..=n]` in place of `self.keys` and `n`, for each of the five.
// Kept: numbers moved one by one. By `copy_within` the C interface would need `memmove` from where it is linked.
ghost use Rattle.std.specs.Prelude.{◌≡◌, ◌≤◌, ◌<◌, length};
ghost use Rattle.program.specs.Table.{opened, closed};

// Opens the place `at` among the first `n` numbers, and puts `v` there.
pub(crate) fn open_at(s: &mut [u32], at: usize, n: usize, v: u32)
    requires { (at ≤ n) × (n < length s.old) }
    ensures { s.new ≡ opened at n v s.old }
{
    let mut i = n;
    while at < i {
        let x = s[i - 1];
        s[i] = x;
        i -= 1;
    }
    s[at] = v;
}

// Closes the place `at` among the first `n` numbers: those behind it come one nearer, and the last
// place is zero.
pub(crate) fn close_at(s: &mut [u32], at: usize, n: usize)
    requires { (at < n) × (n ≤ length s.old) }
    ensures { s.new ≡ closed at n s.old }
{
    let last = n - 1;
    let mut i = at;
    while i < last {
        let x = s[i + 1];
        s[i] = x;
        i += 1;
    }
    s[last] = 0;
}
