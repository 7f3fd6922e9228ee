// Answers of a few numbers, four bytes each, into lent bytes. Each function answers how many numbers now stand in the front
// of out, or a refusal.
#![tactic(auto)]

ghost use Rattle.std.specs.Prelude.{◌≡◌, ◌*◌, ◌≤◌, length};
ghost use Rattle.shared_words.specs.Bytes.{packed};
ghost use Rattle.shared_words.specs.Effects.{filled};
ghost use Rattle.studio_rules.specs.Within.{CountsWithin, NameWithin, BoxNumbers};
ghost use Rattle.c_answers.specs.Given.{given, counts_given, name_given, box_given};

use c_codes::refusal_code;
use shared_numbers::put_long;
use shared_words::Refusal;
use studio_rules::{Boxed, Counts, Span};

// The numbers, into the front of out.
fn put_numbers(numbers: &[u32], out: &mut [u8])
    requires { 4 * length numbers.now ≤ length out.old }
    ensures { out.new ≡ filled (packed 4 numbers.now) out.old }
{
    let mut next = 0usize;
    for number in numbers {
        next = put_long(*number, next, out);
    }
}

fn give_numbers(numbers: &[u32], out: &mut [u8]) -> u64
    ensures answer { result ≡ (given out.old numbers.now).answer }
    ensures out { out.new ≡ (given out.old numbers.now).rows }
{
    let n = numbers.len();
    if out.len() / 4 < n {
        return refusal_code(Refusal::NoRoom(n));
    }
    put_numbers(numbers, out);
    n as u64
}

// The three byte counts.
pub fn give_counts(checked: Result<Counts, Refusal>, out: &mut [u8]) -> u64
    requires { CountsWithin checked }
    ensures answer { result ≡ (counts_given out.old checked).answer }
    ensures out { out.new ≡ (counts_given out.old checked).rows }
{
    match checked {
        Err(r) => refusal_code(r),
        Ok(counts) => {
            let three = [
                counts.headers as u32,
                counts.own as u32,
                counts.skipped as u32,
            ];
            give_numbers(&three, out)
        }
    }
}

// The offset and the length of a name.
pub fn give_name(named: Result<Span, Refusal>, out: &mut [u8]) -> u64
    requires { NameWithin named }
    ensures answer { result ≡ (name_given out.old named).answer }
    ensures out { out.new ≡ (name_given out.old named).rows }
{
    match named {
        Err(r) => refusal_code(r),
        Ok(span) => {
            let two = [span.offset as u32, span.size as u32];
            give_numbers(&two, out)
        }
    }
}

// The low corner, the high corner and the centre of a box.
pub fn give_box(boxed: Result<Boxed, Refusal>, out: &mut [u8]) -> u64
    requires { BoxNumbers boxed }
    ensures answer { result ≡ (box_given out.old boxed).answer }
    ensures out { out.new ≡ (box_given out.old boxed).rows }
{
    match boxed {
        Err(r) => refusal_code(r),
        Ok(Boxed { around, centre }) => {
            let nine = [
                around.low.x.to_bits(),
                around.low.y.to_bits(),
                around.low.z.to_bits(),
                around.high.x.to_bits(),
                around.high.y.to_bits(),
                around.high.z.to_bits(),
                centre.x.to_bits(),
                centre.y.to_bits(),
                centre.z.to_bits(),
            ];
            give_numbers(&nine, out)
        }
    }
}
