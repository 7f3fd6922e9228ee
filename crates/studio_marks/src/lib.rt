// What a run of children leaves behind: for each of five slots of "at most one" the offset of the chunk that was seen there,
// or 0; and in the sixth how many chunks of no group there were. The rules at a chunk's end are read off these marks.
#![tactic(auto)]

ghost use Rattle.std.specs.Prelude.{◌≡◌, cond, ◌+◌, ◌*◌, ◌<◌, min, length};
ghost use Rattle.studio_rules.specs.OwnData.{root};
ghost use Rattle.studio_row.specs.Packed.{slot_in};
ghost use Rattle.studio_marks.specs.Marks.{free, noted, MissingIs, EndIs, ShutIs, Placed, count_at, corners_at, pairs_at, MeshPlaced, mesh_broken};

use shared_numbers::word_at;
use shared_words::Refusal;

// One chunk more of no group.
fn counted(n: u32) -> u32
    ensures { result ≡ min (n + 1) root }
{
    if n < 65535 { n + 1 } else { 65535 }
}

// Notes the chunk of a row at an offset in its slot; false where the slot was taken. A chunk of no group is counted, as far
// as an order can be told.
pub fn note(marks: &mut [u32], row: u64, at: usize) -> bool
    requires { (length marks.old ≡ 6) × (at < 4294967296) }
    ensures is { result ≡ free (slot_in row) marks.old }
    ensures marks { marks.new ≡ cond result (noted (slot_in row) at marks.old) marks.old }
{
    let slot = studio_row::slot(row);
    if 5 <= slot {
        marks[5] = counted(marks[5]);
        return true;
    }
    if marks[slot] != 0 {
        return false;
    }
    marks[slot] = at as u32;
    true
}

// Whether a child is missing that a chunk must have: 3D3D in 4D4D, A000 in AFFF, B010 in B002.
fn is_missing(id: usize, marks: &[u32]) -> bool
    requires { length marks.now ≡ 6 }
    ensures { MissingIs id marks.now result }
{
    if id == 0x4D4D {
        return marks[1] == 0;
    }
    if id == 0xAFFF {
        return marks[0] == 0;
    }
    if id == 0xB002 {
        return marks[0] == 0;
    }
    false
}

// The count word of the child that a mark names: 0 where there is none.
fn count_at(file: &[u8], mark: usize) -> u32
    requires { Placed file.now mark 2 }
    ensures { (result ≡ count_at file.now mark) × (result < 65536) }
{
    if mark == 0 {
        return 0;
    }
    word_at(file, mark + 6)
}

// Whether the corners of the 4120 that a mark names are below n.
fn corners_fine(file: &[u8], mark: usize, n: u32) -> bool
    requires { Placed file.now mark (2 + 8 * count_at file.now mark) }
    ensures { result ≡ corners_at file.now mark n }
{
    if mark == 0 {
        return true;
    }
    let f = word_at(file, mark + 6) as usize;
    studio_scan::corners_below(file, mark + 8, f, n)
}

// Whether the count word of the 4140 that a mark names fits n vertices: it must be n, or at most n in an old file.
fn pairs_fine(file: &[u8], mark: usize, n: u32, as_many: bool) -> bool
    requires { Placed file.now mark 2 }
    ensures { result ≡ pairs_at file.now mark as_many n }
{
    if mark == 0 {
        return true;
    }
    let m = word_at(file, mark + 6);
    if as_many {
        return m == n;
    }
    m <= n
}

// A mesh at its end.
fn at_mesh_end(file: &[u8], as_many: bool, marks: &[u32]) -> Result<(), Refusal>
    requires { (length marks.now ≡ 6) × MeshPlaced file.now marks.now }
    ensures { ShutIs (mesh_broken file.now as_many marks.now) result }
{
    let n = count_at(file, marks[0] as usize);
    let faces = marks[1] as usize;
    if !corners_fine(file, faces, n) {
        return Err(Refusal::Index(faces));
    }
    let pairs = marks[2] as usize;
    if !pairs_fine(file, pairs, n, as_many) {
        return Err(Refusal::Count(pairs));
    }
    Ok(())
}

// A chunk at its end, by the marks that its children left: it stands at an offset. A mesh of the file must have as many
// mapping pairs as vertices, or at most as many.
pub fn at_end(
    file: &[u8],
    id: usize,
    at: usize,
    as_many: bool,
    marks: &[u32],
) -> Result<(), Refusal>
    requires { (length marks.now ≡ 6) × (id ≡ 0x4100 → MeshPlaced file.now marks.now) }
    ensures { EndIs file.now id at as_many marks.now result }
{
    if is_missing(id, marks) {
        return Err(Refusal::Missing(at));
    }
    if id == 0x4100 {
        return at_mesh_end(file, as_many, marks);
    }
    Ok(())
}
