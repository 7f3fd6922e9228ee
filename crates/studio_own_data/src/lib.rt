// Own data of a chunk: whether what stands in it is allowed. How many bytes it takes is told by crate studio_own_size.
#![tactic(auto)]

ghost use Rattle.std.specs.Prelude.{◌≡◌, ◌+◌, ◌≤◌, ◌<◌, length, leb, true, not, ◌||◌};
ghost use Rattle.std.proofs.Math.Seq.{slice};
ghost use Rattle.studio_rules.specs.Table.{listed, under};
ghost use Rattle.studio_rules.specs.Rules.{Parent, numbers_finite, face_numbers_below, father_earlier};
ghost use Rattle.studio_row.specs.Packed.{plus_in, row_of};
ghost use Rattle.studio_own_data.specs.Bounds.{BoundIs};
ghost use Rattle.studio_own_data.specs.Judges.{Exact, refusal_of, Judges};

use shared_numbers::word_at;
use shared_words::Refusal;
use studio_own_size::{Flaw, own_size};

// Whether the floats of a 4110 or a 4140, whose own data stands from at to stop, are finite.
fn numbers_finite(file: &[u8], id: usize, at: usize, stop: usize) -> bool
    requires { (at ≤ stop) × (stop ≤ length file.now) × Exact id (slice at stop file.now) }
    ensures { (p : Parent) → result ≡ numbers_finite p id (slice at stop file.now) }
{
    if id == 0x4110 {
        let n = word_at(file, at) as usize;
        return studio_scan::all_finite(file, at + 2, 3 * n);
    }
    if id == 0x4140 {
        let n = word_at(file, at) as usize;
        return studio_scan::all_finite(file, at + 2, 2 * n);
    }
    true
}

// Whether the face numbers of a 4130 are below f, the count word of the 4120 around it.
fn face_numbers_below(file: &[u8], id: usize, f: u32, at: usize, stop: usize) -> bool
    requires { (at ≤ stop) × (stop ≤ length file.now) × Exact id (slice at stop file.now) }
    ensures { (p : Parent) → under p.id id ≡ true → BoundIs p f → result ≡ face_numbers_below p id (slice at stop file.now) }
{
    if id == 0x4130 {
        let size = studio_names::name_size(file, at, stop);
        let n = word_at(file, at + size) as usize;
        return studio_scan::words_below(file, at + size + 2, n, f);
    }
    true
}

// Whether the father that a B010 tells is none or below the order of the B002 around it. It is the last word.
fn father_earlier(file: &[u8], id: usize, order: u32, at: usize, stop: usize) -> bool
    requires { (at ≤ stop) × (stop ≤ length file.now) × Exact id (slice at stop file.now) }
    ensures { (p : Parent) → under p.id id ≡ true → BoundIs p order → result ≡ father_earlier p id (slice at stop file.now) }
{
    if id == 0xB010 {
        let father = word_at(file, stop - 2);
        if father == 65535 {
            return true;
        }
        return father < order;
    }
    true
}

// Whether bytes are left behind own data, in a chunk of a row that has no children.
fn leaves_bytes(row: u64, from: usize, stop: usize) -> bool
    ensures { result ≡ not (plus_in row || leb stop from) }
{
    if studio_row::may_have_children(row) {
        false
    } else {
        from < stop
    }
}

// What a flaw of own data comes to, in the chunk at a position.
fn refusal_of(flaw: Flaw, at: usize) -> Refusal
    ensures { result ≡ refusal_of flaw at }
{
    match flaw {
        Flaw::NoName => Refusal::Name(at),
        Flaw::Unfit => Refusal::Text(at),
        Flaw::TooLong => Refusal::Length(at),
    }
}

// Own data of any row: how many bytes it has.
fn judge_any(
    file: &[u8],
    id: usize,
    row: u64,
    count: u32,
    at: usize,
    stop: usize,
) -> Result<usize, Refusal>
    requires { (at + 6 ≤ stop) × (stop ≤ length file.now) × (count < 65536) × (listed id ≡ true) × (row ≡ row_of id) }
    ensures { (p : Parent) → under p.id id ≡ true → BoundIs p count → Judges p at id (slice (at + 6) stop file.now) result }
{
    let size = own_size(file, row, count, at + 6, stop).map_err(|flaw| refusal_of(flaw, at))?;
    let from = at + 6 + size;
    if leaves_bytes(row, from, stop) {
        return Err(Refusal::Length(at));
    }
    if !numbers_finite(file, id, at + 6, from) {
        return Err(Refusal::Number(at));
    }
    if !face_numbers_below(file, id, count, at + 6, from) {
        return Err(Refusal::Index(at));
    }
    if !father_earlier(file, id, count, at + 6, from) {
        return Err(Refusal::Father(at));
    }
    Ok(size)
}

// The own data of a listed chunk that stands from at to stop, in a place where it may; count is the bound for what stands in
// the chunk around. A plain row has one condition only, and is told at once.
pub fn judge(
    file: &[u8],
    id: usize,
    row: u64,
    count: u32,
    at: usize,
    stop: usize,
) -> Result<usize, Refusal>
    requires { (at + 6 ≤ stop) × (stop ≤ length file.now) × (count < 65536) × (listed id ≡ true) × (row ≡ row_of id) }
    ensures { (p : Parent) → under p.id id ≡ true → BoundIs p count → Judges p at id (slice (at + 6) stop file.now) result }
{
    if !studio_row::is_plain(row) {
        return judge_any(file, id, row, count, at, stop);
    }
    let size = studio_row::size(row);
    if stop - at == 6 + size {
        Ok(size)
    } else {
        Err(Refusal::Length(at))
    }
}
