// The objects of flat rows that fit, judged one after another: their counts, floats and indices; and the size of the file.
#![tactic(auto)]

ghost use Rattle.std.specs.Prelude.{◌≡◌, ◌+◌, ◌*◌, ◌/◌, ◌<◌, ◌≤◌, length};
ghost use Rattle.shared_words.specs.Conditions.{answered};
ghost use Rattle.studio_figure_rules.specs.Given.{over};
ghost use Rattle.studio_figure_rules.specs.Judged.{none_or_each};
ghost use Rattle.shared_words.specs.Lists.{total};
ghost use Rattle.studio_figure_rows.specs.Rows.{entry, sum_to, run, Capped};
ghost use Rattle.studio_figure_objects.specs.Asked.{group_counts, counts, all_finite, floats, all_below, group_indices, indices};
ghost use Rattle.studio_figure_objects.specs.Sizes.{size_of_words, object_bytes};

use shared_words::Refusal;
use studio_figure_rows::{number, sum};
use studio_write_judge::{all_below, all_finite, first_not_below, first_not_finite, whole_row};

// The longest file.
const LIMIT: usize = 1048576;

// More than any sum of lengths of rows: a cap for `sum` that caps nothing.
pub const ANY: usize = 0x7FFF_FFFF_FFFF_FFFF;

// ---- 13

// The first of n groups that has too many faces.
fn judge_group_counts(groups: &[u32], first: usize, n: usize) -> Result<(), Refusal>
    requires { 2 * (first + n) ≤ length groups.now }
    ensures { result ≡ answered (group_counts groups.now first n) }
{
    for i in 0..n {
        let faces = number(groups, 2, 1, first + i);
        if 65535 < faces {
            return Err(Refusal::Count(faces));
        }
    }
    Ok(())
}

// Whether there are no smoothing words, or one a face.
fn none_or_each(words: usize, faces: usize) -> bool
    ensures { result ≡ none_or_each words faces }
{
    words == 0 || words == faces
}

// The counts of object i, whose first group is of number `group`.
fn judge_object_counts(
    objects: &[u32],
    groups: &[u32],
    i: usize,
    group: usize,
) -> Result<(), Refusal>
    requires { (5 * i + 5 ≤ length objects.now) × (group ≡ sum_to 5 4 objects.now i) × (2 * (group + entry 5 4 objects.now i) ≤ length groups.now) }
    ensures { result ≡ answered (counts objects.now groups.now i) }
{
    let floats = number(objects, 5, 1, i);
    if !whole_row(floats) {
        return Err(Refusal::Count(floats));
    }
    let corners = number(objects, 5, 2, i);
    if !whole_row(corners) {
        return Err(Refusal::Count(corners));
    }
    let words = number(objects, 5, 3, i);
    if !none_or_each(words, corners / 3) {
        return Err(Refusal::Count(words));
    }
    judge_group_counts(groups, group, number(objects, 5, 4, i))
}

// Those of n objects.
pub fn judge_counts(objects: &[u32], groups: &[u32], n: usize) -> Result<(), Refusal>
    requires { (5 * n ≤ length objects.now) × (2 * sum_to 5 4 objects.now n ≤ length groups.now) }
    ensures { result ≡ answered (over (counts objects.now groups.now) (run (λ i. i) 0 n)) }
{
    let mut group = 0usize;
    for i in 0..n {
        judge_object_counts(objects, groups, i, group)?;
        group += number(objects, 5, 4, i);
    }
    Ok(())
}

// ---- 11

// The first float that is not finite.
fn judge_finite(vertices: &[f32]) -> Result<(), Refusal>
    ensures { result ≡ answered (all_finite vertices.now) }
{
    if !all_finite(vertices) {
        return Err(Refusal::Number(first_not_finite(vertices)));
    }
    Ok(())
}

// That of n objects, each by itself.
pub fn judge_floats(objects: &[u32], vertices: &[f32], n: usize) -> Result<(), Refusal>
    requires { (5 * n ≤ length objects.now) × (sum_to 5 1 objects.now n ≤ length vertices.now) }
    ensures { result ≡ answered (over (floats objects.now vertices.now) (run (λ i. i) 0 n)) }
{
    let mut at = 0usize;
    for i in 0..n {
        let end = at + number(objects, 5, 1, i);
        judge_finite(&vertices[at..end])?;
        at = end;
    }
    Ok(())
}

// ---- 12

// The first number that is not below n. (Where n has 16 bits the row is first looked through by vector code.)
fn judge_below(n: usize, row: &[u16]) -> Result<(), Refusal>
    ensures { result ≡ answered (all_below n row.now) }
{
    if n < 65536 {
        if all_below(n as u16, row) {
            return Ok(());
        }
    }
    let at = first_not_below(n, row);
    if at < row.len() {
        return Err(Refusal::Index(at));
    }
    Ok(())
}

// That of the face numbers of n groups, of which there are f faces; those of the first begin at `start`.
fn judge_group_indices(
    groups: &[u32],
    faces: &[u16],
    f: usize,
    first: usize,
    n: usize,
    start: usize,
) -> Result<(), Refusal>
    requires { (2 * (first + n) ≤ length groups.now) × (start ≡ sum_to 2 1 groups.now first) ×
        (sum_to 2 1 groups.now (first + n) ≤ length faces.now) }
    ensures { result ≡ answered (group_indices groups.now faces.now f first n) }
{
    let mut at = start;
    for i in 0..n {
        let end = at + number(groups, 2, 1, first + i);
        judge_below(f, &faces[at..end])?;
        at = end;
    }
    Ok(())
}

// Those of object i: its corners, whose first stands at `at`, then the face numbers of its groups.
fn judge_object_indices(
    objects: &[u32],
    corners: &[u16],
    groups: &[u32],
    faces: &[u16],
    i: usize,
    at: usize,
    group: usize,
    face: usize,
) -> Result<(), Refusal>
    requires i_in_bounds { (5 * i + 5 ≤ length objects.now) × (at ≡ sum_to 5 2 objects.now i) × (at + entry 5 2 objects.now i ≤ length corners.now) }
    requires group_value { (group ≡ sum_to 5 4 objects.now i) × (2 * (group + entry 5 4 objects.now i) ≤ length groups.now) }
    requires face_value { (face ≡ sum_to 2 1 groups.now group) × (sum_to 2 1 groups.now (group + entry 5 4 objects.now i) ≤ length faces.now) }
    ensures { result ≡ answered (indices objects.now corners.now groups.now faces.now i) }
{
    let count = number(objects, 5, 2, i);
    let end = at + count;
    judge_below(number(objects, 5, 1, i) / 3, &corners[at..end])?;
    let n = number(objects, 5, 4, i);
    judge_group_indices(groups, faces, count / 3, group, n, face)
}

// Those of n objects.
pub fn judge_indices(
    objects: &[u32],
    corners: &[u16],
    groups: &[u32],
    faces: &[u16],
    n: usize,
) -> Result<(), Refusal>
    requires n_in_bounds { (5 * n ≤ length objects.now) × (sum_to 5 2 objects.now n ≤ length corners.now) × (2 * sum_to 5 4 objects.now n ≤ length groups.now) }
    requires n_in_bounds_2 { sum_to 2 1 groups.now (sum_to 5 4 objects.now n) ≤ length faces.now }
    ensures { result ≡ answered (over (indices objects.now corners.now groups.now faces.now)
        (run (λ i. i) 0 n)) }
{
    let mut at = 0usize;
    let mut group = 0usize;
    let mut face = 0usize;
    for i in 0..n {
        judge_object_indices(objects, corners, groups, faces, i, at, group, face)?;
        at += number(objects, 5, 2, i);
        let next = group + number(objects, 5, 4, i);
        face += sum(groups, 2, 1, group, next, ANY);
        group = next;
    }
    Ok(())
}

// ---- 1

// The bytes of a 4150.
fn smoothing_size(words: usize) -> usize
    requires { words < 4294967296 }
    ensures { result ≡ size_of_words words }
{
    if words == 0 {
        return 0;
    }
    6 + 4 * words
}

// The size of object i, as far as it matters. (A number and no Option: put_object, whose figure is judged, would get a branch that is never taken.)
pub fn object_size(objects: &[u32], groups: &[u32], i: usize, group: usize) -> usize
    requires { (5 * i + 5 ≤ length objects.now) × (group ≡ sum_to 5 4 objects.now i) × (2 * (group + entry 5 4 objects.now i) ≤ length groups.now) }
    ensures { Capped 0 (object_bytes objects.now groups.now i) 1048576 result × (result ≤ 1048577) }
{
    let count = number(objects, 5, 4, i);
    let names = sum(groups, 2, 0, group, group + count, LIMIT);
    if LIMIT < names {
        return LIMIT + 1;
    }
    let faces = sum(groups, 2, 1, group, group + count, LIMIT);
    if LIMIT < faces {
        return LIMIT + 1;
    }
    let lists = 12 * (number(objects, 5, 1, i) / 3) + 8 * (number(objects, 5, 2, i) / 3);
    let size = 29
        + number(objects, 5, 0, i)
        + lists
        + 9 * count
        + names
        + 2 * faces
        + smoothing_size(number(objects, 5, 3, i));
    if LIMIT < size {
        return LIMIT + 1;
    }
    size
}

// The size of a figure without its objects: of its two headers, and of materials with names of some bytes.
pub fn materials_size(materials: usize, names: usize) -> usize
    ensures { Capped 0 (12 + (58 * materials + names)) 1048576 result }
{
    if LIMIT < materials {
        return LIMIT + 1;
    }
    if LIMIT < names {
        return LIMIT + 1;
    }
    12 + 58 * materials + names
}

// The size of all, behind `first` bytes.
pub fn objects_size(objects: &[u32], groups: &[u32], n: usize, first: usize) -> usize
    requires { (5 * n ≤ length objects.now) × (2 * sum_to 5 4 objects.now n ≤ length groups.now) × (first ≤ 4296015871) }
    ensures { Capped 0 (first + total (object_bytes objects.now groups.now) (run (λ i. i) 0 n)) 1048576 result }
{
    let mut size = first;
    let mut group = 0usize;
    for i in 0..n {
        if LIMIT < size {
            return size;
        }
        size += object_size(objects, groups, i, group);
        group += number(objects, 5, 4, i);
    }
    size
}
