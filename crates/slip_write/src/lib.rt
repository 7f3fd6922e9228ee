// A slip written into a lent buffer: all is judged, then its bytes are put, the entries one behind the other. The functions
// that put answer the position behind what they put.
#![tactic(auto)]

ghost use Rattle.std.specs.Prelude.{◌≡◌, ◌+◌, ◌<◌, ◌≤◌, length};
ghost use Rattle.shared_words.specs.Lists.{All};
ghost use Rattle.shared_numbers.specs.Put.{Put};
ghost use Rattle.slip_rules.specs.Slip.{entry_bytes, all_bytes, bytes};
ghost use Rattle.slip_rules.specs.Calls.{entry_from, entries_from, given_bytes, slip_write_call};
ghost use Rattle.slip_write.specs.Ready.{Fitting, Ready};

use shared_big_endian::{put_long, put_word};
use shared_copy::put_part;
use shared_numbers::put_byte;
use shared_words::Refusal;
use slip_rules::Numbers;
use slip_write_judge::{judge, row};

// One entry.
fn put_entry(names: &[u8], it: Numbers, at: usize, out: &mut [u8]) -> usize
    requires { Fitting names.now it × (at + (7 + it.len) ≤ length out.old) }
    ensures { Put out.old at (entry_bytes (entry_from names.now it)) out.new result }
{
    let name = put_byte(it.len as u8, at, out);
    let file = put_part(names, it.name as usize, it.len as usize, name, out);
    let sums = put_long(it.file, file, out);
    let second = put_byte((it.sums % 256) as u8, sums, out);
    put_byte((it.sums / 256) as u8, second, out)
}

// All entries.
fn put_entries(names: &[u8], entries: &[u8], at: usize, out: &mut [u8]) -> usize
    requires all { All (Fitting names.now) (given_bytes entries.now).rows }
    requires entries_in_bounds { at + length (all_bytes (entries_from names.now (given_bytes entries.now).rows)) ≤ length out.old }
    ensures { Put out.old at (all_bytes (entries_from names.now (given_bytes entries.now).rows)) out.new result }
{
    let n = entries.len() / 16;
    let mut next = at;
    for i in 0..n {
        next = put_entry(names, row(entries, i), next, out);
    }
    next
}

// The whole slip, of `size` bytes.
fn put_slip(names: &[u8], entries: &[u8], size: usize, out: &mut [u8]) -> usize
    requires { Ready names.now entries.now size (length out.old) }
    ensures { Put out.old 0 (bytes (entries_from names.now (given_bytes entries.now).rows)) out.new result }
{
    let rest = put_byte(1, 0, out);
    let count = put_long((size - 5) as u32, rest, out);
    let first = put_word((entries.len() / 16) as u16, count, out);
    put_entries(names, entries, first, out)
}

// Writes a slip of the entries given, whose names stand in `names`. Answers its size, or the refusal; a refusal leaves the
// buffer as it was.
pub fn write(names: &[u8], entries: &[u8], out: &mut [u8]) -> Result<usize, Refusal>
    ensures answer { result ≡ (slip_write_call names.now (given_bytes entries.now) out.old).answer }
    ensures out { out.new ≡ (slip_write_call names.now (given_bytes entries.now) out.old).rows }
{
    let size = judge(names, entries, out.len())?;
    put_slip(names, entries, size, out);
    Ok(size)
}
