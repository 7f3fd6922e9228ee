// The children of 3D3D, each judged by itself: how many of them fail and how many bytes that is; and then what is kept of them,
// and the cuts, put into two rows. So each child is judged twice, and nothing is written before all are judged.
#![tactic(auto)]

ghost use Rattle.std.specs.Prelude.{◌≡◌, [], ◌∷◌, ◌+◌, ◌<◌, ◌≤◌, length};
ghost use Rattle.std.proofs.Math.Seq.{slice};
ghost use Rattle.shared_words.specs.Bytes.{packed};
ghost use Rattle.shared_numbers.specs.Put.{Put};
ghost use Rattle.studio_rules.specs.Walk.{walk};
ghost use Rattle.studio_rescue_rules.specs.Rescue.{scene, sift};
ghost use Rattle.studio_rescue_sift.specs.Children.{span, child_of, cuts_of, Within, Fillable, FilledIs};

use shared_copy::put_part;
use shared_numbers::{long_at, put_long};

// Where the child at a position ends: by its length, or where all of them end, if its header is bad.
fn end_of(file: &[u8], at: usize, end: usize) -> usize
    requires { (at < end) × (end ≤ length file.now) }
    ensures is { result ≡ at + span at (slice at end file.now) }
    ensures within { (at < result) × (result ≤ end) }
{
    if end - at < 6 {
        return end;
    }
    let len = long_at(file, at + 2) as usize;
    if len < 6 {
        return end;
    }
    if end - at < len {
        return end;
    }
    at + len
}

// The number of the refusal for which the child from at to stop is cut, in a file of a version; none, where it is kept.
fn judge(file: &[u8], table: &[u64; 128], version: u32, at: usize, stop: usize) -> Option<u32>
    requires { Within file.now table.now at stop }
    ensures { result ≡ child_of (walk (scene version) [] at (slice at stop file.now)) }
{
    // an unlisted child is kept, and to see that takes no walk
    if studio_head::pass_over(file, table, at, stop) == stop {
        return None;
    }
    let row = studio_lookup::row(table, 0x3D3D);
    let mut marks = [0u32; 6];
    match studio_walk::run(file, table, row, 0, 3 <= version, at, stop, &mut marks) {
        Err(r) => Some(shared_refusals::number(r)),
        Ok(_) => None,
    }
}

// How many cuts there are, and how many bytes they are together.
#[derive(Clone, Copy)]
pub struct Cuts {
    pub count: usize,
    pub gone: usize,
}

// The cuts among the children from from to to.
pub fn count(file: &[u8], table: &[u64; 128], version: u32, from: usize, to: usize) -> Cuts
    requires { Within file.now table.now from to }
    ensures { result ≡ cuts_of (sift version from (slice from to file.now)).cuts }
{
    let mut at = from;
    let mut count = 0usize;
    let mut gone = 0usize;
    // a `while`: each child's length tells where the next begins
    while at < to {
        let stop = end_of(file, at, to);
        match judge(file, table, version, at, stop) {
            Some(_) => {
                count += 1;
                gone += stop - at;
            }
            None => {}
        }
        at = stop;
    }
    Cuts { count, gone }
}

// Puts the three numbers of a cut, and answers the position behind them.
fn put_cut(offset: usize, number: u32, removed: usize, at: usize, row: &mut [u8]) -> usize
    requires { (at + 12 ≤ length row.old) × (offset < 4294967296) × (removed < 4294967296) }
    ensures { Put row.old at (packed 4 (offset ∷ number ∷ removed ∷ [])) row.new result }
{
    let numbered = put_long(offset as u32, at, row);
    let counted = put_long(number, numbered, row);
    put_long(removed as u32, counted, row)
}

// Puts the cuts at the front of their row, and what is kept at a position of out. Answers the position behind it.
pub fn fill(
    file: &[u8],
    table: &[u64; 128],
    version: u32,
    from: usize,
    to: usize,
    cuts: &mut [u8],
    at: usize,
    out: &mut [u8],
) -> usize
    requires { Fillable file.now table.now version from to (length cuts.old) at (length out.old) }
    ensures { FilledIs (sift version from (slice from to file.now)) cuts.old cuts.new at out.old
        out.new result }
{
    let mut child = from;
    let mut row = 0usize;
    let mut next = at;
    // a `while`: each child's length tells where the next begins
    while child < to {
        let stop = end_of(file, child, to);
        match judge(file, table, version, child, stop) {
            Some(number) => {
                row = put_cut(child, number, stop - child, row, cuts);
            }
            None => {
                next = put_part(file, child, stop - child, next, out);
            }
        }
        child = stop;
    }
    next
}
