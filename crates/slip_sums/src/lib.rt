// The checksum of a file, the 8-bit Fletcher sum of RFC 1146: of a whole file, part by part, and against an entry of a slip.
#![tactic(auto)]

ghost use Rattle.std.specs.Prelude.{◌≡◌, ◌+◌, ◌-◌, ◌^◌, ◌<◌, min, length};
ghost use Rattle.slip_sums.specs.Fletcher.{sum_of};
ghost use Rattle.slip_sums.specs.Joined.{join, capped, with_part};
ghost use Rattle.slip_sums.specs.Passes.{match_of, sums_call};
ghost use Rattle.slip_sums.specs.Totals.{TotalsOf};

use shared_words::Refusal;

// What is known of a part of a file: how many bytes it has, and their two sums.
#[derive(Clone, Copy)]
pub struct Sum {
    pub len: u64,
    pub first: u64,
    pub second: u64,
}

// The two sums of a few bytes, before the remainders are taken.
#[derive(Clone, Copy)]
struct Totals {
    first: u64,
    second: u64,
}

// The totals of a block. A byte counts in the second as often as a running sum holds it, so that no step waits for the one
// before. All numbers of the loop have 16 bits, the second total as two digits to the base 256: eight steps make one of
// vector code.
fn block_totals(s: &[u8]) -> Totals
    requires { length s.now ≡ 128 }
    ensures { TotalsOf s.now result.first result.second }
{
    let mut first = 0u16;
    let mut high = 0u16;
    let mut low = 0u16;
    for i in 0..128usize {
        let b = s[i] as u16;
        let counted = b * ((128 - i) as u16);
        first += b;
        high += counted / 256;
        low += counted % 256;
    }
    Totals {
        first: first as u64,
        second: 256 * (high as u64) + low as u64,
    }
}

// The totals of what is left behind the last block.
fn rest_totals(s: &[u8]) -> Totals
    requires { length s.now < 128 }
    ensures { TotalsOf s.now result.first result.second }
{
    let mut first = 0u64;
    let mut second = 0u64;
    for b in s {
        first += *b as u64;
        second += first;
    }
    Totals { first, second }
}

// The sum of a file. Remainders are taken once a block.
pub fn sums(file: &[u8]) -> Sum
    ensures { result ≡ sum_of file.now }
{
    let mut first = 0u64;
    let mut second = 0u64;
    let blocks = file.len() / 128;
    for k in 0..blocks {
        let at = 128 * k;
        let block = block_totals(&file[at..at + 128]);
        second = (second + 128 * first + block.second) % 255;
        first = (first + block.first) % 255;
    }
    let end = 128 * blocks;
    let left = (file.len() - end) as u64;
    let rest = rest_totals(&file[end..]);
    Sum {
        len: file.len() as u64,
        first: (first + rest.first) % 255,
        second: (second + left * first + rest.second) % 255,
    }
}

// The sum of a file that is to be entered in a slip.
pub fn entry_sums(file: &[u8]) -> Result<Sum, Refusal>
    ensures { result ≡ sums_call file.now }
{
    if 1048576 < file.len() {
        return Err(Refusal::TooLong);
    }
    Ok(sums(file))
}

// ---- part by part

const LONGEST: u64 = 281474976710655;

// The length of two parts. One beyond 48 bits counts as the longest of 48.
fn joined_length(a: u64, b: u64) -> u64
    ensures { result ≡ min (a + b) (2 ^ 48 - 1) }
{
    if LONGEST <= a {
        return LONGEST;
    }
    if LONGEST - a <= b {
        return LONGEST;
    }
    a + b
}

// The sum of two parts, from theirs.
pub fn join(before: Sum, behind: Sum) -> Sum
    ensures { result ≡ capped (join before behind) }
{
    let first = before.first % 255;
    Sum {
        len: joined_length(before.len, behind.len),
        first: (first + behind.first % 255) % 255,
        second: (before.second % 255 + behind.second % 255 + behind.len % 255 * first) % 255,
    }
}

// The sum of what stood before, followed by these bytes.
pub fn with_part(before: Sum, part: &[u8]) -> Sum
    ensures { result ≡ with_part before part.now }
{
    join(before, sums(part))
}

// ---- against an entry

// Whether the file of a sum is the one of an entry, as far as length and sums tell.
pub fn matches(sum: Sum, len: u64, first: u64, second: u64) -> Result<(), Refusal>
    ensures { result ≡ match_of sum len first second }
{
    if sum.len != len {
        return Err(Refusal::Differs(0));
    }
    if sum.first != first {
        return Err(Refusal::Differs(1));
    }
    if sum.second != second {
        return Err(Refusal::Differs(1));
    }
    Ok(())
}
