// A part of a slice put into another one.
#![tactic(auto)]

ghost use Rattle.std.specs.Prelude.{◌+◌, ◌≤◌, length, take, drop};
ghost use Rattle.shared_numbers.specs.Put.{Put};

// Puts n bytes of a slice, from a position of it on, at a position of out, and answers the position behind them. (A loop and no
// `copy_from_slice`, which would make the library need memmove of the C library.)
pub fn put_part(s: &[u8], from: usize, n: usize, at: usize, out: &mut [u8]) -> usize
    requires { (from + n ≤ length s.now) × (at + n ≤ length out.old) }
    ensures { Put out.old at (take n (drop from s.now)) out.new result }
{
    for i in 0..n {
        out[at + i] = s[from + i];
    }
    at + n
}
