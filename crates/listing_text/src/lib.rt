// What the listing program prints, as bytes in a lent buffer. Each `put_` function puts text at a position of out and
// answers the position behind it; the bytes around the text stay.
#![tactic(auto)]

ghost use Rattle.std.specs.Prelude.{◌≡◌, ◌+◌, ◌*◌, ◌≤◌, length, take};
ghost use Rattle.shared_numbers.specs.Put.{Put};
ghost use Rattle.studio_rules.specs.Gives.{record_numbers};
ghost use Rattle.listing_text.specs.Lines.{field, refusal_line, counts_line, chunk_line, row_lines};
ghost use Rattle.listing_input.specs.Within.{Within};
ghost use Rattle.listing_text.specs.Listing.{listing, printed};

use listing_input::Unread;
use listing_printing::{put_decimal, put_four_digits, put_text};
use shared_numbers::put_byte;
use shared_words::Refusal;
use studio_list_rows::RECORD_NUMBERS;
use studio_rules::Counts;

// The numbers of the program's row of 1,024 records.
const ROW: usize = 1024 * RECORD_NUMBERS;

// Room for any listing: a first line of at most 87 bytes, and 1,024 lines of at most 68.
pub const ROOM: usize = 69719;

// ---- the lines

// A number behind a space.
fn put_field(n: usize, at: usize, out: &mut [u8]) -> usize
    requires { at + 21 ≤ length out.old }
    ensures text { Put out.old at (field n) out.new result }
    ensures within { result ≤ at + 21 }
{
    put_decimal(n, put_byte(b' ', at, out), out)
}

// A refusal's line.
fn put_refusal(r: Refusal, at: usize, out: &mut [u8]) -> usize
    requires { at + 50 ≤ length out.old }
    ensures text { Put out.old at (refusal_line r) out.new result }
    ensures within { result ≤ at + 50 }
{
    let number = put_text(b"refused", at, out);
    let place = put_field(shared_refusals::number(r) as usize, number, out);
    let end = put_field(shared_refusals::place(r), place, out);
    put_byte(b'\n', end, out)
}

// The first line of an accepted file of a size.
fn put_counts(size: usize, c: Counts, at: usize, out: &mut [u8]) -> usize
    requires { at + 87 ≤ length out.old }
    ensures text { Put out.old at (counts_line size c) out.new result }
    ensures within { result ≤ at + 87 }
{
    let first = put_text(b"ok", at, out);
    let headers = put_field(size, first, out);
    let own = put_field(c.headers, headers, out);
    let skipped = put_field(c.own, own, out);
    let end = put_field(c.skipped, skipped, out);
    put_byte(b'\n', end, out)
}

// The line of one chunk.
fn put_chunk(depth: u32, id: u32, offset: u32, len: u32, at: usize, out: &mut [u8]) -> usize
    requires { at + 68 ≤ length out.old }
    ensures text { Put out.old at (chunk_line depth id offset len) out.new result }
    ensures within { result ≤ at + 68 }
{
    let space = put_decimal(depth as usize, at, out);
    let digits = put_byte(b' ', space, out);
    let first = put_four_digits(id as usize, digits, out);
    let second = put_field(offset as usize, first, out);
    let end = put_field(len as usize, second, out);
    put_byte(b'\n', end, out)
}

// The lines of the first n records of a flat row.
fn put_chunks(row: &[u32], n: usize, at: usize, out: &mut [u8]) -> usize
    requires { (record_numbers * n ≤ length row.now) × (at + 68 * n ≤ length out.old) }
    ensures text { Put out.old at (row_lines n row.now) out.new result }
    ensures within { result ≤ at + 68 * n }
{
    let mut next = at;
    for i in 0..n {
        let j = RECORD_NUMBERS * i;
        next = put_chunk(row[j + 3], row[j], row[j + 1], row[j + 2], next, out);
    }
    next
}

// ---- the listing

// The listing of a file.
fn put_listing(file: &[u8], out: &mut [u8; ROOM]) -> usize
    ensures text { Put out.old 0 (listing file.now) out.new result }
    ensures within { result ≤ length out.new }
{
    let mut row = [0u32; ROW];
    match studio_list::list(file, &mut row) {
        Err(r) => put_refusal(r, 0, out),
        Ok(counts) => {
            let first = put_counts(file.len(), counts, 0, out);
            put_chunks(&row, counts.records, first, out)
        }
    }
}

// What is printed of an input, of which the buffer has the front: put at the front of out. Answers how many bytes it has.
pub fn answer(buffer: &[u8], input: Result<usize, Unread>, out: &mut [u8; ROOM]) -> usize
    requires { Within buffer.now input }
    ensures text { Put out.old 0 (printed buffer.now input) out.new result }
    ensures within { result ≤ length out.new }
    ensures taken { result ≡ length (take result out.new) }
{
    match input {
        Ok(size) => put_listing(&buffer[..size], out),
        Err(Unread::Longer) => put_refusal(Refusal::TooLong, 0, out),
        Err(Unread::Failed) => 0,
    }
}
