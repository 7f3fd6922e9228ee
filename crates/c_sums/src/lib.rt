// The checksum's answers as one number, for C: the sums of a file, a file against an entry, and both part by part.
#![tactic(auto)]

ghost use Rattle.std.specs.Prelude.{◌≡◌, ◌/◌, ◌%◌};
ghost use Rattle.slip_sums.specs.Fletcher.{sum_of};
ghost use Rattle.slip_sums.specs.Passes.{sums_call, match_of};
ghost use Rattle.c_sums.specs.Numbers.{SumsProper, sums_or, zero_or, Handed, number_of, sum_in, with_part_number, join_numbers};

use c_codes::refusal_code;
use shared_words::Refusal;
use slip_sums::Sum;

// ---- of a whole file

fn sums_code(summed: Result<Sum, Refusal>) -> u64
    requires { SumsProper summed }
    ensures { result ≡ sums_or summed }
{
    summed.map_or_else(refusal_code, |sum| sum.first + 256 * sum.second)
}

// The sums of a file, for making an entry, or a refusal.
pub fn file_sums(file: &[u8]) -> u64
    ensures { result ≡ sums_or (sums_call file.now) }
{
    sums_code(slip_sums::entry_sums(file))
}

fn matched_code(matched: Result<(), Refusal>) -> u64
    ensures { result ≡ zero_or matched }
{
    matched.map_or_else(refusal_code, |_| 0)
}

fn against_entry(sum: Sum, len: u32, sums: u32) -> u64
    ensures { result ≡ zero_or (match_of sum len (sums % 256) (sums / 256)) }
{
    let first = (sums % 256) as u64;
    let second = (sums / 256) as u64;
    matched_code(slip_sums::matches(sum, len as u64, first, second))
}

// One file against one entry.
pub fn file_matches(file: &[u8], len: u32, sums: u32) -> u64
    ensures { result ≡ zero_or (match_of (sum_of file.now) len (sums % 256) (sums / 256)) }
{
    against_entry(slip_sums::sums(file), len, sums)
}

// ---- part by part, where a part is known by one number: C keeps no more of it between tds_sum_add and tds_sum_matches

fn number_of(sum: Sum) -> u64
    requires { Handed sum }
    ensures { result ≡ number_of sum }
{
    sum.first + 256 * sum.second + 65536 * sum.len
}

fn sum_in(number: u64) -> Sum
    ensures { result ≡ sum_in number }
{
    Sum {
        len: number / 65536,
        first: number % 256 % 255,
        second: number / 256 % 256 % 255,
    }
}

// The number of what stood before, followed by these bytes.
pub fn sum_add(before: u64, part: &[u8]) -> u64
    ensures { result ≡ with_part_number before part.now }
{
    number_of(slip_sums::with_part(sum_in(before), part))
}

// The number of two parts joined, from theirs.
pub fn sum_join(first: u64, second: u64) -> u64
    ensures { result ≡ join_numbers first second }
{
    number_of(slip_sums::join(sum_in(first), sum_in(second)))
}

// All the parts together against one entry.
pub fn sum_matches(sum: u64, len: u32, sums: u32) -> u64
    ensures { result ≡ zero_or (match_of (sum_in sum) len (sums % 256) (sums / 256)) }
{
    against_entry(sum_in(sum), len, sums)
}
