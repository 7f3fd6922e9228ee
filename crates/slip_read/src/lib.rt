// A slip read into a lent row of bytes: a check pass over the slip, then a pass that fills the row, 16 bytes an entry.
#![tactic(auto)]

ghost use Rattle.std.specs.Prelude.{◌≡◌, [], ◌∷◌, ◌+◌, ◌*◌, ◌≤◌, length};
ghost use Rattle.std.proofs.lemmas.List.Edits.{sets};
ghost use Rattle.shared_numbers.specs.Put.{Put};
ghost use Rattle.slip_rules.specs.Rules.{most_entries};
ghost use Rattle.slip_rules.specs.Calls.{numbers_of, all_numbers, byte_row, slip_read_call};
ghost use Rattle.slip_check.specs.Entries.{entry_in, next_at, entries_in, Whole};

use shared_big_endian::{byte_at, long_at};
use shared_numbers::put_long;
use shared_words::Refusal;
use slip_check::check;

// Puts the four numbers of the entry at an offset, and answers the position behind them.
fn put_entry(s: &[u8], o: usize, at: usize, row: &mut [u8]) -> usize
    requires { (next_at s.now o ≤ length s.now) × (o ≤ 1000000) × (at + 16 ≤ length row.old) }
    ensures { Put row.old at (byte_row.encode (numbers_of o (entry_in s.now o) ∷ [])) row.new result }
{
    let len = byte_at(s, o);
    let file = long_at(s, o + 1 + len);
    let first = byte_at(s, o + 5 + len);
    let second = byte_at(s, o + 5 + len + 1);
    let named = put_long((o + 1) as u32, at, row);
    let sized = put_long(len as u32, named, row);
    let filed = put_long(file as u32, sized, row);
    put_long((first + 256 * second) as u32, filed, row)
}

// Puts the numbers of all entries.
fn fill(s: &[u8], count: usize, row: &mut [u8])
    requires { Whole count s.now 7 × (count ≤ most_entries) × (16 * count ≤ length row.old) }
    ensures { row.new ≡ sets row.old 0 (byte_row.encode (all_numbers 7 (entries_in count s.now 7))) }
{
    let mut o = 7usize;
    let mut at = 0usize;
    for _ in 0..count {
        at = put_entry(s, o, at, row);
        o += 7 + byte_at(s, o);
    }
}

// The entries of a slip, in order, into a lent row whose room is counted in whole entries. Answers how many there are, or
// the refusal; a refusal leaves the row as it was.
pub fn read(slip: &[u8], row: &mut [u8]) -> Result<usize, Refusal>
    ensures answer { result ≡ (slip_read_call byte_row slip.now row.old).answer }
    ensures row { row.new ≡ (slip_read_call byte_row slip.now row.old).rows }
{
    let n = check(slip)?;
    if row.len() / 16 < n {
        return Err(Refusal::NoRoom(n));
    }
    fill(slip, n, row);
    Ok(n)
}
