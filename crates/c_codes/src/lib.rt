// An answer as one number, for C.
#![tactic(auto)]

ghost use Rattle.std.specs.Prelude.{◌≡◌};
ghost use Rattle.studio_rules.specs.Within.{SizesWithin};
ghost use Rattle.c_codes.specs.Codes.{refusal_code, records_or, sizes_or, numbers_or, count_or};

use shared_words::Refusal;
use studio_rules::{Counts, Sizes};

// A refusal, its number and place in one as every function of tds answers C. Only the writer can have a place beyond 32 bits; it is
// answered as the largest.
pub fn refusal_code(r: Refusal) -> u64
    ensures { result ≡ refusal_code r }
{
    let number = shared_refusals::number(r) as u64;
    let place = shared_refusals::place(r) as u64;
    if place < 4294967295 {
        number * 4294967296 + place
    } else {
        number * 4294967296 + 4294967295
    }
}

// The count of records, or a refusal.
pub fn checked_code(checked: Result<Counts, Refusal>) -> u64
    ensures { result ≡ records_or checked }
{
    checked.map_or_else(refusal_code, |counts| counts.records as u64)
}

// The vertices plus 65,536 times the faces, or a refusal.
pub fn tabled_code(tabled: Result<Sizes, Refusal>) -> u64
    requires { SizesWithin tabled }
    ensures { result ≡ sizes_or tabled }
{
    tabled.map_or_else(
        refusal_code,
        |sizes| sizes.vertices as u64 + 65536 * (sizes.faces as u64),
    )
}

// How many numbers a mapping has, or a refusal.
pub fn mapped_code(tabled: Result<Sizes, Refusal>) -> u64
    requires { SizesWithin tabled }
    ensures { result ≡ numbers_or tabled }
{
    tabled.map_or_else(refusal_code, |sizes| 2 * (sizes.pairs as u64))
}

// A count or a size, or a refusal.
pub fn count_code(count: Result<usize, Refusal>) -> u64
    ensures { result ≡ count_or count }
{
    count.map_or_else(refusal_code, |n| n as u64)
}
