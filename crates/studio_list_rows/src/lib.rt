// One record of the list into the rows that a caller lends: one of numbers and one of bytes.
#![tactic(auto)]

ghost use Rattle.std.specs.Prelude.{◌≡◌, [], ◌∷◌, ◌+◌, ◌*◌, ◌≤◌, length};
ghost use Rattle.std.proofs.lemmas.List.Edits.{sets};
ghost use Rattle.shared_words.specs.Bytes.{packed};
ghost use Rattle.shared_words.specs.Refusals.{limit};
ghost use Rattle.studio_rules.specs.Gives.{record_numbers, flat};
ghost use Rattle.studio_list_rows.specs.Lent.{lent, Room, written};

use shared_numbers::put_long;
use studio_rules::Record;

// How many numbers a record has.
pub const RECORD_NUMBERS: usize = 7;

// The bytes of them, four to a number.
pub const RECORD_BYTES: usize = 4 * RECORD_NUMBERS;

// A record as numbers, from i on.
fn put_numbers(records: &mut [u32], i: usize, r: Record)
    requires { i + record_numbers ≤ length records.old }
    ensures { records.new ≡ sets records.old i (flat (r ∷ [])) }
{
    records[i] = r.identifier;
    records[i + 1] = r.offset;
    records[i + 2] = r.len;
    records[i + 3] = r.depth;
    records[i + 4] = r.parent;
    records[i + 5] = r.own;
    records[i + 6] = r.next;
}

// The same as bytes, four to a number.
fn put_bytes(bytes: &mut [u8], i: usize, r: Record)
    requires { i + 4 * record_numbers ≤ length bytes.old }
    ensures { bytes.new ≡ sets bytes.old i (packed 4 (flat (r ∷ []))) }
{
    let offset = put_long(r.identifier, i, bytes);
    let len = put_long(r.offset, offset, bytes);
    let depth = put_long(r.len, len, bytes);
    let parent = put_long(r.depth, depth, bytes);
    let own = put_long(r.parent, parent, bytes);
    let next = put_long(r.own, own, bytes);
    put_long(r.next, next, bytes);
}

// The record of number next, into the rows that are in use: those that are not empty.
pub fn put_record(records: &mut [u32], bytes: &mut [u8], next: usize, r: Record)
    requires { (next ≤ limit) × Room (lent records.old bytes.old) (next + 1) }
    ensures { lent records.new bytes.new ≡ written (lent records.old bytes.old) next (r ∷ []) }
{
    if records.len() != 0 {
        put_numbers(records, RECORD_NUMBERS * next, r);
    }
    if bytes.len() != 0 {
        put_bytes(bytes, RECORD_BYTES * next, r);
    }
}
