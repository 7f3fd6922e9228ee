// What stands at a chunk's start: its header, its place, its slot and its own data, tested in this order.
#![tactic(auto)]

ghost use Rattle.std.specs.Prelude.{◌≡◌, true, List, ℕ, ◌+◌, ◌≤◌, ◌<◌, length};
ghost use Rattle.std.proofs.Math.Seq.{slice};
ghost use Rattle.studio_rules.specs.Table.{listed, under};
ghost use Rattle.studio_rules.specs.Rules.{Parent, inside};
ghost use Rattle.shared_words.specs.Conditions.{broken};
ghost use Rattle.studio_rules.specs.Walk.{header_conditions, length_field, step};
ghost use Rattle.studio_row.specs.Packed.{row_of};
ghost use Rattle.studio_lookup.specs.Slots.{slots};
ghost use Rattle.studio_own_data.specs.Bounds.{BoundIs};
ghost use Rattle.studio_head.specs.Heads.{HeaderIs, HeaderWithin, OrderIs, HeadIs, opened_by, MarksAre, HeadWithin};
ghost use Rattle.studio_head.specs.Contexts.{Room, Context};
ghost use Rattle.studio_head.specs.Passes.{Passes};

use shared_numbers::{long_at, word_at};
use shared_words::Refusal;

// The header of a chunk: its identifier and where the chunk ends.
#[derive(Clone, Copy)]
pub struct Header {
    pub id: usize,
    pub stop: usize,
}

fn read_header(file: &[u8], at: usize, end: usize) -> Result<Header, Refusal>
    requires { (at < end) × (end ≤ length file.now) }
    ensures is { HeaderIs file.now at (broken
        (header_conditions at (slice at end file.now) (length_field (slice at end file.now)))) result }
    ensures within { HeaderWithin at end result }
{
    if end - at < 6 {
        return Err(Refusal::Stray(at));
    }
    let len = long_at(file, at + 2) as usize;
    if len < 6 {
        return Err(Refusal::Short(at));
    }
    if end - at < len {
        return Err(Refusal::Overrun(at));
    }
    Ok(Header {
        id: word_at(file, at) as usize,
        stop: at + len,
    })
}

// What stands at a chunk's start: an unlisted chunk, one that has no children, or one that may have.
#[derive(Clone, Copy)]
pub enum Head {
    Skip {
        stop: usize,
    },
    Leaf {
        stop: usize,
    },
    Enter {
        id: usize,
        row: u64,
        count: u32,
        from: usize,
        stop: usize,
    },
}

// The bound for what stands inside a chunk whose own data is from at to stop: of a B002 its order, else its count word.
fn bound_inside(file: &[u8], id: usize, order: u32, at: usize, stop: usize) -> u32
    requires { (at ≤ stop) × (stop ≤ length file.now) }
    ensures { (p : Parent) (seen : List ℕ) → OrderIs id seen order → BoundIs (inside p seen id (slice at stop file.now)) result }
{
    if id == 0xB002 {
        return order;
    }
    studio_own_size::count_of(file, at, stop)
}

// A listed chunk from at to stop, whose place and slot are fine; order is that of a B002.
fn look_listed(
    file: &[u8],
    id: usize,
    row: u64,
    count: u32,
    order: u32,
    at: usize,
    stop: usize,
) -> Result<Head, Refusal>
    requires { (at + 6 ≤ stop) × (stop ≤ length file.now) × (count < 65536) × (listed id ≡ true) × (row ≡ row_of id) }
    ensures is { (p : Parent) (seen rest : List ℕ) → under p.id id ≡ true → BoundIs p count → OrderIs id seen order →
        HeadIs p seen at (opened_by p at id (slice (at + 6) stop file.now) rest) result }
    ensures within { HeadWithin at stop result }
{
    let size = studio_own_data::judge(file, id, row, count, at, stop)?;
    let from = at + 6 + size;
    if studio_row::may_have_children(row) {
        Ok(Head::Enter {
            id,
            row,
            count: bound_inside(file, id, order, at + 6, from),
            from,
            stop,
        })
    } else {
        Ok(Head::Leaf { stop })
    }
}

// The chunk at at, in a run that ends at end; parent is the row of the chunk around, and count the bound for what stands in
// it.
pub fn look(
    file: &[u8],
    table: &[u64; 128],
    parent: u64,
    count: u32,
    at: usize,
    end: usize,
    marks: &mut [u32],
) -> Result<Head, Refusal>
    requires { (at < end) × Room end count file.now marks.old × (table.now ≡ slots) }
    ensures is { (p : Parent) (seen : List ℕ) → Context p seen parent count marks.old →
        HeadIs p seen at (step p seen at (slice at end file.now)) result }
    ensures marks { (p : Parent) (seen : List ℕ) → Context p seen parent count marks.old →
        MarksAre at (step p seen at (slice at end file.now)) marks.old marks.new }
    ensures six { length marks.new ≡ 6 }
    ensures within { HeadWithin at end result }
{
    let header = read_header(file, at, end)?;
    let row = studio_lookup::row(table, header.id);
    if row == 0 {
        return Ok(Head::Skip { stop: header.stop });
    }
    if !studio_row::may_hold(parent, row) {
        return Err(Refusal::Misplaced(at));
    }
    let order = marks[5];
    if !studio_marks::note(marks, row, at) {
        return Err(Refusal::Twice(at));
    }
    look_listed(file, header.id, row, count, order, at, header.stop)
}

// Where the unlisted chunks end that stand from at on one after another, in a run that ends at end: at a listed one, at a fault,
// or at its end.
pub fn pass_over(file: &[u8], table: &[u64; 128], at: usize, end: usize) -> usize
    requires { (at ≤ end) × (end ≤ length file.now) × (table.now ≡ slots) }
    ensures is { (p : Parent) (seen : List ℕ) → Passes p seen file.now at end result }
    ensures within { (at ≤ result) × (result ≤ end) }
{
    let mut o = at;
    // a `while`: each chunk's length tells where the next begins
    while o < end {
        let Ok(header) = read_header(file, o, end) else {
            return o;
        };
        if studio_lookup::is_listed(table, header.id) {
            return o;
        }
        o = header.stop;
    }
    o
}
