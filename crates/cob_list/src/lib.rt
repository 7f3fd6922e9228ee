// The list of a file's chunks of the four types, with their topmost owners, into a lent row of bytes: a check pass, then a pass
// that fills the row. In the second pass `up` holds for each node of the search tree the number of its topmost owner, so that
// the way up is one step.
#![tactic(auto)]

ghost use Rattle.std.specs.Prelude.{◌≡◌, [], ◌∷◌, ◌+◌, ◌-◌, ◌<◌, ◌≤◌, length};
ghost use Rattle.shared_numbers.specs.Put.{Put};
ghost use Rattle.cob_rules.specs.Calls.{record_bytes, list_call};
ghost use Rattle.cob_seen.specs.Tree.{Represents};
ghost use Rattle.cob_chunk.specs.Chunks.{chunk_in};
ghost use Rattle.cob_list.specs.Filling.{top_for, record_with, Fillable, Fills, PutListed, EndPut};

use cob_check::judge_file;
use cob_chunk::{chunk_end, is_listed, kind_at};
use cob_owner::topmost;
use cob_rules::Record;
use cob_seen::find;
use shared_numbers::{long_at, put_long};
use shared_words::Refusal;

// The node of the topmost owner of node k, from its parent's identifier.
fn top_for(ids: &[u32], links: &[u32], count: usize, up: &[u32], k: u32, parent: u32) -> u32
    requires { Represents ids.now links.now count × (count ≤ length up.now) × (count ≤ 1048576) }
    ensures { result ≡ top_for ids.now count up.now k parent }
{
    if parent == 0 {
        return k;
    }
    match find(ids, links, count, parent) {
        Some(p) => topmost(up, p as u32),
        None => k,
    }
}

// The record of the chunk at an offset, which ends at `next`.
fn record_at(file: &[u8], at: usize, next: usize, owner: u32) -> Record
    requires { (at + 20 ≤ length file.now) × (at ≤ next) × (next ≤ 1048576) }
    ensures { result ≡ record_with (chunk_in file.now at) at (next - at) owner }
{
    Record {
        kind: long_at(file, at),
        offset: at as u32,
        len: (next - at) as u32,
        identifier: long_at(file, at + 8),
        parent: long_at(file, at + 12),
        owner,
    }
}

// Puts a record, and answers the position behind it.
fn put_record(r: Record, at: usize, row: &mut [u8]) -> usize
    requires { at + 24 ≤ length row.old }
    ensures { Put row.old at (record_bytes.encode (r ∷ [])) row.new result }
{
    let kind = put_long(r.kind, at, row);
    let offset = put_long(r.offset, kind, row);
    let len = put_long(r.len, offset, row);
    let identifier = put_long(r.identifier, len, row);
    let parent = put_long(r.parent, identifier, row);
    put_long(r.owner, parent, row)
}

// Puts the record of the chunk at an offset, if it is listed, and answers the position behind it.
fn put_listed(file: &[u8], at: usize, next: usize, owner: u32, to: usize, row: &mut [u8]) -> usize
    requires { (at + 20 ≤ length file.now) × (at ≤ next) × (next ≤ 1048576) × (to + 24 ≤ length row.old) }
    ensures { PutListed file.now at next owner row.old to row.new result }
{
    if !is_listed(kind_at(file, at)) {
        return to;
    }
    let r = record_at(file, at, next, owner);
    put_record(r, to, row)
}

// Puts the record of END, which is the rest of the file: it has zeros.
fn put_end(file: &[u8], at: usize, to: usize, row: &mut [u8])
    requires { (at + 20 ≤ length file.now) × (length file.now ≤ 1048576) × (to + 24 ≤ length row.old) }
    ensures { EndPut file.now at row.old to row.new }
{
    let r = Record {
        kind: long_at(file, at),
        offset: at as u32,
        len: (file.len() - at) as u32,
        identifier: 0,
        parent: 0,
        owner: 0,
    };
    put_record(r, to, row);
}

// Puts the records of an accepted file.
fn fill(file: &[u8], ids: &[u32], links: &[u32], count: usize, up: &mut [u32], row: &mut [u8])
    requires { Fillable file.now count ids.now links.now row.old × (count ≤ length up.old) }
    ensures { Fills file.now row.old row.new }
{
    let mut at = 32usize;
    let mut to = 0usize;
    for k in 1..count {
        let next = chunk_end(file, at);
        let top = top_for(ids, links, count, up, k as u32, long_at(file, at + 12));
        up[k] = top;
        to = put_listed(file, at, next, ids[top as usize], to, row);
        at = next;
    }
    put_end(file, at, to, row);
}

// The same, with a row for the topmost owners.
fn fill_records(file: &[u8], ids: &[u32], links: &[u32], count: usize, row: &mut [u8])
    requires { Fillable file.now count ids.now links.now row.old }
    ensures { Fills file.now row.old row.new }
{
    let mut up = [0u32; 52429];
    fill(file, ids, links, count, &mut up, row);
}

// The list, into a lent row whose room is counted in whole records. Answers how many there are, or the refusal, which leaves the
// row as it was.
pub fn list(file: &[u8], row: &mut [u8]) -> Result<usize, Refusal>
    ensures answer { result ≡ (list_call record_bytes file.now row.old).answer }
    ensures row { row.new ≡ (list_call record_bytes file.now row.old).rows }
{
    if 1048576 < file.len() {
        return Err(Refusal::TooLong);
    }
    let mut ids = [0u32; 52429];
    let mut links = [0u32; 104858];
    let walked = judge_file(file, &mut ids, &mut links)?;
    let n = walked.records;
    if row.len() / 24 < n {
        return Err(Refusal::NoRoom(n));
    }
    fill_records(file, &ids, &links, walked.nodes, row);
    Ok(n)
}
