// How much of a name a label takes: the one test behind refusal 24, for figures, slips and writers.
#![tactic(auto)]

ghost use Rattle.std.specs.Prelude.{◌≡◌, true, ◌+◌, ◌≤◌, length};
ghost use Rattle.std.proofs.Math.Seq.{slice};
ghost use Rattle.shared_words.specs.Labels.{printable, fits_label, label_fault};
ghost use Rattle.shared_words.specs.Lists.{first_fault};
ghost use Rattle.shared_labels.specs.Passed.{AllPrintable, FitsOn};

use shared_eights::printable_front;

fn is_printable(b: u8) -> bool
    ensures { result ≡ printable b }
{
    32 <= b && b <= 126
}

// Whether the 16 bytes at a position are all printable. The loop branches on nothing that it reads, and becomes vector code.
fn all_printable(s: &[u8], at: usize) -> bool
    requires { at + 16 ≤ length s.now }
    ensures { result ≡ true → AllPrintable s.now at 16 }
{
    let mut good = true;
    for i in 0..16 {
        if !is_printable(s[at + i]) {
            good = false;
        }
    }
    good
}

// A position up to which all bytes are printable, sixteen at a time: what is left up to the first bad one is short.
// (No `for`: where the loop stops is the answer, and a count of blocks would have to be made a position again.)
fn skip_blocks(s: &[u8], at: usize, end: usize) -> usize
    requires { (at ≤ end) × (end ≤ length s.now) }
    ensures { FitsOn s.now at result end }
{
    let mut i = at;
    while 16 <= end - i {
        if !all_printable(s, i) {
            return i;
        }
        i += 16;
    }
    i
}

// The same, eight at a time: it is the first bad one, or fewer than eight are left.
fn skip_eights(s: &[u8], at: usize, end: usize) -> usize
    requires { (at ≤ end) × (end ≤ length s.now) }
    ensures { FitsOn s.now at result end }
{
    let mut i = at;
    while 8 <= end - i {
        let n = printable_front(&s[i..]);
        if n < 8 {
            return i + n;
        }
        i += 8;
    }
    i
}

// How many of the bytes from at to end are printable before the first that is not.
pub fn printable_size(s: &[u8], at: usize, end: usize) -> usize
    requires { (at ≤ end) × (end ≤ length s.now) }
    ensures { result ≡ first_fault printable (slice at end s.now) }
{
    let start = skip_eights(s, skip_blocks(s, at, end), end);
    for i in start..end {
        if !is_printable(s[i]) {
            return i - at;
        }
    }
    end - at
}

// How many of the bytes from at to end a label takes: as many as there are just where they fit it. No more than 63 are looked
// at. (The slice is handed on as a part of itself: only so the compiler hands it on in registers.)
pub fn label_size(s: &[u8], at: usize, end: usize) -> usize
    requires { (at ≤ end) × (end ≤ length s.now) }
    ensures { result ≡ label_fault (slice at end s.now) }
{
    if end - at <= 63 {
        return printable_size(&s[0..], at, end);
    }
    printable_size(&s[0..], at, at + 63)
}

// Whether the bytes from at to end fit a label.
pub fn fits_label(s: &[u8], at: usize, end: usize) -> bool
    requires { (at ≤ end) × (end ≤ length s.now) }
    ensures { result ≡ fits_label (slice at end s.now) }
{
    label_size(s, at, end) == end - at
}
