// The records of an accepted file's known chunks. The check has judged the file, so this pass judges nothing: it steps from
// chunk to chunk by their lengths. A chunk holds a run of children and a run is made of chunks: `list_chunk` and `list_run`
// call each other.
#![tactic(auto)]

ghost use Rattle.std.specs.Prelude.{◌≡◌, true, List, ◌++◌, ℕ, ◌+◌, ◌≤◌, ◌<◌, length};
ghost use Rattle.std.proofs.Math.Seq.{slice};
ghost use Rattle.studio_row.specs.Packed.{plus_in, kind_in};
ghost use Rattle.studio_lookup.specs.Slots.{slots};
ghost use Rattle.studio_list_rows.specs.Lent.{lent};
ghost use Rattle.studio_list_walk.specs.Laid.{Bounds, SomeChunk, SomeRun, ChunkListed, RunListed, Begins};

use shared_numbers::{long_at, word_at};
use studio_rules::Record;

// How long the own data is with which a chunk's body, from at to stop, begins. A row without children has nothing else in
// its body; before children stand so many bytes, a name or counted elements.
fn own_length(file: &[u8], row: u64, at: usize, stop: usize) -> usize
    requires { (at ≤ stop) × (stop ≤ length file.now) × (plus_in row ≡ true → kind_in row < 3) }
    ensures is { (around own more : List ℕ) → Begins row around own more → own ++ more ≡ slice at stop file.now → result ≡ length own }
    ensures within { at + result ≤ stop }
{
    if !studio_row::may_have_children(row) {
        return stop - at;
    }
    let size = studio_row::size(row);
    let kind = studio_row::kind(row);
    match kind {
        0 => studio_own_size::fitting(size, stop - at).unwrap_or(0),
        1 => studio_own_size::name_size(file, at, stop).unwrap_or(0),
        _ => studio_own_size::counted_size(file, size, at, stop).unwrap_or(0),
    }
}

// The chunk from at to stop, whose record, if it is known, has the number next. Answers the number of the record after
// its last, which its record holds too: so it is stored when its children have been counted.
#[cycle(list_chunk_list_run)]
fn list_chunk(
    file: &[u8],
    table: &[u64; 128],
    records: &mut [u32],
    bytes: &mut [u8],
    at: usize,
    stop: usize,
    depth: usize,
    parent: usize,
    next: usize,
) -> usize
    requires { (at + 6 ≤ stop) × Bounds file.now at stop depth parent next × SomeChunk file.now at stop next (lent records.old bytes.old) ×
        (table.now ≡ slots) }
    ensures { ChunkListed file.now at stop depth parent next (lent records.old bytes.old)
        (lent records.new bytes.new) result }
{
    let id = word_at(file, at);
    let row = studio_lookup::row(table, id as usize);
    if row == 0 {
        return next;
    }
    let own = own_length(file, row, at + 6, stop);
    let from = at + 6 + own;
    let mut after = next + 1;
    if from != stop {
        after = list_run(
            file,
            table,
            records,
            bytes,
            from,
            stop,
            depth + 1,
            next,
            next + 1,
        );
    }
    let record = Record {
        identifier: id,
        offset: at as u32,
        len: (stop - at) as u32,
        depth: depth as u32,
        parent: parent as u32,
        own: own as u32,
        next: after as u32,
    };
    studio_list_rows::put_record(records, bytes, next, record);
    after
}

// The run of chunks from at to end.
#[cycle(list_chunk_list_run)]
pub fn list_run(
    file: &[u8],
    table: &[u64; 128],
    records: &mut [u32],
    bytes: &mut [u8],
    at: usize,
    end: usize,
    depth: usize,
    parent: usize,
    next: usize,
) -> usize
    requires { (at ≤ end) × Bounds file.now at end depth parent next × SomeRun file.now at end next (lent records.old bytes.old) ×
        (table.now ≡ slots) }
    ensures { RunListed file.now at end depth parent next (lent records.old bytes.old)
        (lent records.new bytes.new) result }
{
    let mut from = at;
    let mut number = next;
    // a `while`: each chunk's length tells where the next begins
    while from < end {
        let stop = from + (long_at(file, from + 2) as usize);
        number = list_chunk(
            file, table, records, bytes, from, stop, depth, parent, number,
        );
        from = stop;
    }
    number
}
