// The judgement of a figure of flat rows: the first fault in the papers' order, or the size of the file.
#![tactic(auto)]

ghost use Rattle.std.specs.Prelude.{◌≡◌, ◌+◌, ◌*◌, ◌/◌, ◌<◌, ◌≤◌, length};
ghost use Rattle.shared_words.specs.Conditions.{answered};
ghost use Rattle.studio_figure_rules.specs.Described.{judged_flat};
ghost use Rattle.studio_figure_rows.specs.Rows.{sum_to};
ghost use Rattle.studio_figure_rows.specs.Given.{given};
ghost use Rattle.studio_figure_judge.specs.Judged.{groups_at, text_asked, same_asked, material_asked, names_asked, objects_asked, size_of_rows, size_answer};

use shared_words::Refusal;
use studio_figure_names::{Question, first_unnamed, judge_differ, judge_names};
use studio_figure_objects::{
    ANY, judge_counts, judge_floats, judge_indices, materials_size, objects_size,
};
use studio_figure_rows::{FlatRows, sum};

// The longest file.
const LIMIT: usize = 1048576;

// 9, or 24: the names of the objects, then those of the materials.
fn judge_text(
    names: &[u8],
    objects: &[u32],
    materials: &[u32],
    question: Question,
) -> Result<(), Refusal>
    requires { groups_at objects.now materials.now ≤ length names.now }
    ensures { result ≡ answered (text_asked question names.now objects.now materials.now) }
{
    let n = objects.len() / 5;
    judge_names(names, 0, objects, 5, n, question)?;
    let first = sum(objects, 5, 0, 0, n, ANY);
    judge_names(names, first, materials, 1, materials.len(), question)
}

// 29: likewise.
fn judge_same(names: &[u8], objects: &[u32], materials: &[u32]) -> Result<(), Refusal>
    requires { groups_at objects.now materials.now ≤ length names.now }
    ensures { result ≡ answered (same_asked names.now objects.now materials.now) }
{
    let n = objects.len() / 5;
    judge_differ(names, 0, objects, 5, n)?;
    let first = sum(objects, 5, 0, 0, n, ANY);
    judge_differ(names, first, materials, 1, materials.len())
}

// 30.
fn judge_materials(
    names: &[u8],
    objects: &[u32],
    materials: &[u32],
    groups: &[u32],
) -> Result<(), Refusal>
    requires { groups_at objects.now materials.now + sum_to 2 0 groups.now (length groups.now / 2) ≤ length names.now }
    ensures { result ≡ answered (material_asked names.now objects.now materials.now groups.now) }
{
    let first = sum(objects, 5, 0, 0, objects.len() / 5, ANY);
    let from = first + sum(materials, 1, 0, 0, materials.len(), ANY);
    match first_unnamed(names, first, materials, from, groups, groups.len() / 2) {
        Some(group) => Err(Refusal::NoMaterial(group)),
        None => Ok(()),
    }
}

// All that is asked of names.
fn judge_all_names(
    names: &[u8],
    objects: &[u32],
    materials: &[u32],
    groups: &[u32],
) -> Result<(), Refusal>
    requires { groups_at objects.now materials.now + sum_to 2 0 groups.now (length groups.now / 2) ≤ length names.now }
    ensures { result ≡ answered (names_asked names.now objects.now materials.now groups.now) }
{
    judge_text(names, objects, materials, Question::Zero)?;
    judge_text(names, objects, materials, Question::Label)?;
    judge_same(names, objects, materials)?;
    judge_materials(names, objects, materials, groups)
}

// 13, 11, 12 of all objects.
fn judge_all_objects(
    objects: &[u32],
    vertices: &[f32],
    corners: &[u16],
    groups: &[u32],
    faces: &[u16],
) -> Result<(), Refusal>
    requires objects_in_bounds { (sum_to 5 1 objects.now (length objects.now / 5) ≤ length vertices.now) ×
        (sum_to 5 2 objects.now (length objects.now / 5) ≤ length corners.now) }
    requires objects_in_bounds_2 { (2 * sum_to 5 4 objects.now (length objects.now / 5) ≤ length groups.now) ×
        (sum_to 2 1 groups.now (sum_to 5 4 objects.now (length objects.now / 5)) ≤ length faces.now) }
    ensures { result ≡ answered (objects_asked objects.now vertices.now corners.now groups.now
        faces.now) }
{
    let n = objects.len() / 5;
    judge_counts(objects, groups, n)?;
    judge_floats(objects, vertices, n)?;
    judge_indices(objects, corners, groups, faces, n)
}

// 1 and 15, or the size.
fn judge_size(
    objects: &[u32],
    groups: &[u32],
    materials: &[u32],
    room: usize,
) -> Result<usize, Refusal>
    requires { (2 * sum_to 5 4 objects.now (length objects.now / 5) ≤ length groups.now) ×
        (sum_to 1 0 materials.now (length materials.now) < 9223372036854775808) }
    ensures { result ≡ size_answer (size_of_rows objects.now groups.now materials.now) room }
{
    let first = materials_size(
        materials.len(),
        sum(materials, 1, 0, 0, materials.len(), ANY),
    );
    let size = objects_size(objects, groups, objects.len() / 5, first);
    if LIMIT < size {
        return Err(Refusal::TooLong);
    }
    if room < size {
        return Err(Refusal::NoRoom(size));
    }
    Ok(size)
}

// The answer for a buffer of `room` bytes.
pub fn judge_figure(rows: &FlatRows, room: usize) -> Result<usize, Refusal>
    ensures { result ≡ judged_flat (given rows.now) room }
{
    rows.fits()?;
    judge_all_names(rows.names, rows.objects, rows.materials, rows.groups)?;
    judge_all_objects(
        rows.objects,
        rows.vertices,
        rows.corners,
        rows.groups,
        rows.faces,
    )?;
    judge_size(rows.objects, rows.groups, rows.materials, room)
}
