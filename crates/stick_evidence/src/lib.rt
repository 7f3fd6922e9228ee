// The evidence for a file of a stick: the record of its item, filled from its bytes.
#![tactic(auto)]

ghost use Rattle.std.specs.Prelude.{◌≡◌, cond, ◌+◌, ◌*◌, ◌≤◌, length};
ghost use Rattle.shared_words.specs.Bytes.{le};
ghost use Rattle.shared_numbers.specs.Put.{Put};
ghost use Rattle.stick_evidence.specs.Evidence.{answer_of, too_long, is_more, ending, file_call, more_call};

use c_codes::{checked_code, count_code, refusal_code};
use c_sums::sum_add;
use shared_words::Refusal;
use stick_names::format_of;
use stick_records::eight_at;

// ---- numbers into a record

// Puts an 8-byte number at a position of out, and answers the position behind it.
fn put_eight(v: u64, at: usize, out: &mut [u8]) -> usize
    requires { at + 8 ≤ length out.old }
    ensures { Put out.old at (le 8 v) out.new result }
{
    out[at..at + 8].copy_from_slice(&v.to_le_bytes());
    at + 8
}

// The numbers from a position of out to its end.
fn put_numbers(numbers: &[u64], at: usize, out: &mut [u8])
    requires { at + 8 * length numbers.now ≡ length out.old }
    ensures { out.new ≡ ending out.old at numbers.now }
{
    let mut next = at;
    for number in numbers {
        next = put_eight(*number, next, out);
    }
}

// ---- a file

// What a reader answers of these bytes.
fn answer_of(reader: u64, bytes: &[u8]) -> u64
    ensures { result ≡ answer_of reader bytes.now }
{
    match reader {
        1 => checked_code(studio_check::check(bytes)),
        2 => count_code(cob_check::check(bytes)),
        3 => count_code(c4d_check::check(bytes)),
        _ => 0,
    }
}

// Fills the record of a file from its path, the size that the system told, and its bytes.
pub fn file(path: &[u8], size: u64, bytes: &[u8], item: &mut [u8]) -> u64
    ensures answer { result ≡ (file_call path.now size bytes.now item.old).answer }
    ensures row { item.new ≡ (file_call path.now size bytes.now item.old).rows }
{
    if item.len() != 56 {
        return refusal_code(Refusal::NoRoom(56));
    }
    let checksum = sum_add(0, bytes);
    let reader = format_of(path);
    let answer = answer_of(reader, bytes);
    let five = [1, size, checksum, reader, answer];
    put_numbers(&five, 16, item);
    0
}

// ---- more of it

// The answer, where a part more was read.
fn more_answer(reader: u64, part: &[u8], answer: u64) -> u64
    ensures { result ≡ cond (is_more reader part.now) too_long answer }
{
    if reader == 0 || part.is_empty() {
        answer
    } else {
        4294967296
    }
}

// Goes on in the record of a file with a further part of its bytes.
pub fn more(part: &[u8], item: &mut [u8]) -> u64
    ensures answer { result ≡ (more_call part.now item.old).answer }
    ensures row { item.new ≡ (more_call part.now item.old).rows }
{
    if item.len() != 56 {
        return refusal_code(Refusal::NoRoom(56));
    }
    let checksum = sum_add(eight_at(item, 32), part);
    let reader = eight_at(item, 40);
    let answer = more_answer(reader, part, eight_at(item, 48));
    let three = [checksum, reader, answer];
    put_numbers(&three, 32, item);
    0
}
