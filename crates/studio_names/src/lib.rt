// Where a name ends: the scan for its zero, and for what does not fit the label.
#![tactic(auto)]

ghost use Rattle.std.specs.Prelude.{◌≡◌, true, ◌+◌, ◌≤◌, min, length};
ghost use Rattle.std.proofs.Math.Seq.{slice};
ghost use Rattle.studio_rules.specs.OwnData.{name_size};
ghost use Rattle.studio_names.specs.Names.{NoZero, NameOn, fit_size, Printable};

use shared_eights::{nonzero_front, printable_front};

// Whether none of the 16 bytes at a position is zero.
fn no_zero(s: &[u8], at: usize) -> bool
    requires { at + 16 ≤ length s.now }
    ensures { result ≡ true → NoZero s.now at 16 }
{
    let mut none = true;
    for i in 0..16 {
        if s[at + i] == 0 {
            none = false;
        }
    }
    none
}

// A position up to which no byte is zero, sixteen at a time: what is left up to the first zero is short.
fn skip_blocks(s: &[u8], at: usize, end: usize) -> usize
    requires { (at ≤ end) × (end ≤ length s.now) }
    ensures { NameOn s.now at result end }
{
    let mut i = at;
    // blocks of sixteen, up to a rest that is shorter: a range would count bytes, and chunks of a slice would lose the position
    while 16 <= end - i {
        if !no_zero(s, i) {
            return i;
        }
        i += 16;
    }
    i
}

// The same, eight at a time: it is the first zero, or fewer than eight are left.
fn skip_eights(s: &[u8], at: usize, end: usize) -> usize
    requires { (at ≤ end) × (end ≤ length s.now) }
    ensures { NameOn s.now at result end }
{
    let mut i = at;
    // as above, by eight
    while 8 <= end - i {
        let n = nonzero_front(&s[i..]);
        if n < 8 {
            return i + n;
        }
        i += 8;
    }
    i
}

// The bytes of the name at a position, with its zero; one more than there are up to the end, if there is no zero.
pub fn name_size(s: &[u8], at: usize, end: usize) -> usize
    requires { (at ≤ end) × (end ≤ length s.now) }
    ensures { result ≡ name_size (slice at end s.now) }
{
    let from = skip_eights(s, skip_blocks(s, at, end), end);
    for i in from..end {
        if s[i] == 0 {
            return i + 1 - at;
        }
    }
    end + 1 - at
}

// ---- a name that must fit the label

// A name that fits ends before the 65th byte.
fn label_end(at: usize, stop: usize) -> usize
    requires { at ≤ stop }
    ensures { result ≡ min stop (at + 64) }
{
    if stop - at <= 64 {
        return stop;
    }
    at + 64
}

// The bytes of such a name, with its zero; 0 where there is none. Those before from, which may stand behind stop, are printable.
fn long_fit(s: &[u8], at: usize, from: usize, stop: usize) -> usize
    requires { Printable s.now at from stop }
    ensures { result ≡ fit_size (slice at stop s.now) }
{
    let end = label_end(at, stop);
    if end < from {
        return 0;
    }
    let i = from + shared_labels::printable_size(&s[0..], from, end);
    if end <= i {
        return 0;
    }
    if s[i] != 0 {
        return 0;
    }
    i + 1 - at
}

// The same. Mostly its zero stands at from.
fn fit_from(s: &[u8], at: usize, from: usize, stop: usize) -> usize
    requires { Printable s.now at from stop }
    ensures { result ≡ fit_size (slice at stop s.now) }
{
    if from < stop && s[from] == 0 {
        return from + 1 - at;
    }
    long_fit(&s[0..], at, from, stop)
}

// The same, of all of it: mostly it has up to eight bytes.
pub fn fit_size(s: &[u8], at: usize, stop: usize) -> usize
    requires { (at ≤ stop) × (stop ≤ length s.now) }
    ensures { result ≡ fit_size (slice at stop s.now) }
{
    if s.len() - at < 8 {
        return fit_from(s, at, at, stop);
    }
    fit_from(s, at, at + printable_front(&s[at..]), stop)
}

// The same: mostly it has up to sixteen, and no branch depends on how many.
pub fn fit_size_16(s: &[u8], at: usize, stop: usize) -> usize
    requires { (at ≤ stop) × (stop ≤ length s.now) }
    ensures { result ≡ fit_size (slice at stop s.now) }
{
    if s.len() - at < 16 {
        return fit_from(s, at, at, stop);
    }
    let first = printable_front(&s[at..]);
    let second = printable_front(&s[at + 8..]);
    fit_from(s, at, at + first + first / 8 * second, stop)
}
