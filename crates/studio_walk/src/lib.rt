// The strict reading of chunks. A chunk holds a run of children and a run is made of chunks: `chunk` and `run` call each
// other, and the first fault met in file order is answered. The tests at a chunk's start are in crate studio_head, those at its end
// in crate studio_marks.
#![tactic(auto)]

ghost use Rattle.std.specs.Prelude.{◌≡◌, List, ℕ, ◌≤◌, ◌<◌, length};
ghost use Rattle.std.proofs.Math.Seq.{slice};
ghost use Rattle.studio_rules.specs.Rules.{Parent};
ghost use Rattle.studio_rules.specs.Walk.{step, walk};
ghost use Rattle.studio_lookup.specs.Slots.{slots};
ghost use Rattle.studio_marks.specs.Marks.{RuleIs, MeshPlaced};
ghost use Rattle.studio_head.specs.Contexts.{Room, Context};
ghost use Rattle.studio_walk.specs.Runs.{SomeContext, ClosesBy, ClosesWith, ChunkIs, ChunkWithin, RunIs, RunWithin};

use shared_words::Refusal;
use studio_head::Head;

// What a chunk or a run of chunks comes to: where it ends, how many records it has and how many bytes were skipped.
#[derive(Clone, Copy)]
pub struct Ran {
    pub next: usize,
    pub records: usize,
    pub skipped: usize,
}

// A chunk at its end, which is stop: its children have so many records and skipped bytes, and left these marks.
fn close(
    file: &[u8],
    id: usize,
    at: usize,
    as_many: bool,
    stop: usize,
    records: usize,
    skipped: usize,
    marks: &[u32],
) -> Result<Ran, Refusal>
    requires { (length marks.now ≡ 6) × (id ≡ 0x4100 → MeshPlaced file.now marks.now) × (records < 4294967296) }
    ensures is { ClosesBy file.now id at as_many marks.now stop records skipped result }
    ensures counts { ClosesWith stop records skipped result }
{
    studio_marks::at_end(file, id, at, as_many, marks)?;
    Ok(Ran {
        next: stop,
        records: records + 1,
        skipped,
    })
}

// The chunk at at, in a file in whose meshes mapping pairs are as many as vertices, or at most as many. Its children leave
// marks of their own, by which it is judged at its end.
#[cycle(chunk_run)]
fn chunk(
    file: &[u8],
    table: &[u64; 128],
    parent: u64,
    count: u32,
    as_many: bool,
    at: usize,
    end: usize,
    marks: &mut [u32],
) -> Result<Ran, Refusal>
    requires { (at < end) × (1 ≤ at) × Room end count file.now marks.old × SomeContext parent count as_many marks.old × (table.now ≡ slots) }
    ensures is { (p : Parent) (seen : List ℕ) → RuleIs p as_many → Context p seen parent count marks.old →
        ChunkIs p seen at (step p seen at (slice at end file.now)) result marks.old marks.new }
    ensures six { length marks.new ≡ 6 }
    ensures within { ChunkWithin at end result }
{
    let head = studio_head::look(file, table, parent, count, at, end, marks)?;
    match head {
        Head::Skip { stop } => Ok(Ran {
            next: stop,
            records: 0,
            skipped: stop - at,
        }),
        Head::Leaf { stop } => Ok(Ran {
            next: stop,
            records: 1,
            skipped: 0,
        }),
        Head::Enter {
            id,
            row,
            count: word,
            from,
            stop,
        } => {
            let mut inner = [0u32; 6];
            // without children there is nothing to walk
            if from == stop {
                return close(file, id, at, as_many, stop, 0, 0, &inner);
            }
            let kids = run(file, table, row, word, as_many, from, stop, &mut inner)?;
            close(
                file,
                id,
                at,
                as_many,
                stop,
                kids.records,
                kids.skipped,
                &inner,
            )
        }
    }
}

// The run of chunks from at to end.
#[cycle(chunk_run)]
pub fn run(
    file: &[u8],
    table: &[u64; 128],
    parent: u64,
    count: u32,
    as_many: bool,
    at: usize,
    end: usize,
    marks: &mut [u32],
) -> Result<Ran, Refusal>
    requires { (at ≤ end) × (1 ≤ at) × Room end count file.now marks.old × SomeContext parent count as_many marks.old × (table.now ≡ slots) }
    ensures is { (p : Parent) (seen : List ℕ) → RuleIs p as_many → Context p seen parent count marks.old →
        RunIs end 0 0 at marks.old (walk p seen at (slice at end file.now)) result marks.new }
    ensures six { length marks.new ≡ 6 }
    ensures within { RunWithin at end result }
{
    let mut p = at;
    let mut records = 0usize;
    let mut skipped = 0usize;
    // a `while`: each chunk tells where the next begins
    while p < end {
        let met = chunk(file, table, parent, count, as_many, p, end, marks)?;
        p = met.next;
        records += met.records;
        skipped += met.skipped;
        // unlisted chunks often stand together: one loop over them costs less than a look at each
        if met.records == 0 {
            p = studio_head::pass_over(file, table, met.next, end);
            skipped += p - met.next;
        }
    }
    Ok(Ran {
        next: end,
        records,
        skipped,
    })
}
