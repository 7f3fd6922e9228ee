// Scans of a list in a slice: whether all its numbers pass a test. The loops branch on nothing that they read, so that they
// run as fast as the bytes come.
#![tactic(auto)]

ghost use Rattle.std.specs.Prelude.{◌≡◌, ◌+◌, ◌*◌, ◌≤◌, max, length, drop};
ghost use Rattle.shared_words.specs.Bytes.{numbers};
ghost use Rattle.shared_words.specs.Lists.{every};
ghost use Rattle.shared_words.specs.Floats.{finite};
ghost use Rattle.studio_rules.specs.OwnData.{corners};
ghost use Rattle.studio_rules.specs.Rules.{all_below};
ghost use Rattle.studio_scan.specs.Halves.{Halves};

use shared_numbers::{is_finite, word_at};

// The 4-byte number that a part begins with. Its bytes stand at fixed places of the part, so that it is one load.
fn first_long(s: &[u8]) -> u32
    requires { 4 ≤ length s.now }
    ensures { Halves s.now 0 result }
{
    (s[0] as u32) + 256 * (s[1] as u32) + 65536 * (s[2] as u32) + 16777216 * (s[3] as u32)
}

// The 4-byte number at a position, by one load: a loop of such loads becomes vector code.
fn load_long(s: &[u8], at: usize) -> u32
    requires { at + 4 ≤ length s.now }
    ensures { Halves s.now at result }
{
    first_long(&s[at..])
}

// Whether the n floats at a position are finite.
pub fn all_finite(s: &[u8], at: usize, n: usize) -> bool
    requires { at + 4 * n ≤ length s.now }
    ensures { result ≡ every finite (numbers 4 n (drop at s.now)) }
{
    let mut good = true;
    for i in 0..n {
        if !is_finite(load_long(s, at + 4 * i)) {
            good = false;
        }
    }
    good
}

// Whether the n words at a position are below a limit.
pub fn words_below(s: &[u8], at: usize, n: usize, limit: u32) -> bool
    requires { at + 2 * n ≤ length s.now }
    ensures { result ≡ all_below limit (numbers 2 n (drop at s.now)) }
{
    let mut good = true;
    for i in 0..n {
        if limit <= word_at(s, at + 2 * i) {
            good = false;
        }
    }
    good
}

fn larger(a: u32, b: u32) -> u32
    ensures { result ≡ max a b }
{
    if a < b { b } else { a }
}

// Whether a face at a position, three corner words and a flag word, has its corners below a limit.
fn face_below(s: &[u8], at: usize, limit: u32) -> bool
    requires { at + 8 ≤ length s.now }
    ensures { result ≡ all_below limit (corners 1 (drop at s.now)) }
{
    let ab = load_long(s, at);
    let a = ab % 65536;
    let b = ab / 65536;
    let c = load_long(s, at + 4) % 65536;
    larger(larger(a, b), c) < limit
}

// Whether the corners of the n faces at a position are below a limit.
pub fn corners_below(s: &[u8], at: usize, n: usize, limit: u32) -> bool
    requires { at + 8 * n ≤ length s.now }
    ensures { result ≡ all_below limit (corners n (drop at s.now)) }
{
    let mut good = true;
    for i in 0..n {
        if !face_below(s, at + 8 * i, limit) {
            good = false;
        }
    }
    good
}
