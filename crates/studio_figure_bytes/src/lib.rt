// The bytes of a figure of flat rows. Each function puts bytes at a position of out, and answers the position behind them.
#![tactic(auto)]

ghost use Rattle.std.specs.Prelude.{◌≡◌, ℕ, ◌+◌, ◌*◌, ◌/◌, ◌<◌, ◌≤◌, length};
ghost use Rattle.shared_numbers.specs.Put.{Put};
ghost use Rattle.studio_figure_rules.specs.Given.{over};
ghost use Rattle.shared_words.specs.Lists.{total};
ghost use Rattle.studio_figure_rules.specs.Described.{judged_flat};
ghost use Rattle.studio_figure_rows.specs.Rows.{entry, sum_to, run};
ghost use Rattle.studio_figure_rows.specs.Given.{given};
ghost use Rattle.studio_figure_objects.specs.Sizes.{object_bytes};
ghost use Rattle.studio_figure_bytes.specs.Objects.{At, Behind, WritableIn, flat_bytes, pieces_in};

use studio_figure_chunks::{put_groups, put_lists, put_materials, put_smoothing};
use studio_figure_objects::{ANY, object_size};
use studio_figure_rows::{FlatRows, number, sum};
use studio_write_bytes::put_header;

// Where an object begins in each row: its name, its floats, corners and smoothing words; its first group, with its name and
// faces.
#[derive(Clone, Copy)]
struct Place {
    name: usize,
    vertex: usize,
    corner: usize,
    word: usize,
    group: usize,
    label: usize,
    face: usize,
}

// The place behind object i, which begins at p.
fn next_place(objects: &[u32], groups: &[u32], i: usize, p: Place) -> Place
    requires i_in_bounds { (5 * i + 5 ≤ length objects.now) × (2 * (p.group + entry 5 4 objects.now i) ≤ length groups.now) }
    requires i_bound { (p.name + entry 5 0 objects.now i < 9223372036854775808) × (p.vertex + entry 5 1 objects.now i < 9223372036854775808) }
    requires i_bound_2 { (p.corner + entry 5 2 objects.now i < 9223372036854775808) × (p.word + entry 5 3 objects.now i < 9223372036854775808) }
    requires i_bound_3 { (sum_to 2 0 groups.now (p.group + entry 5 4 objects.now i) < 9223372036854775808) ×
        (sum_to 2 1 groups.now (p.group + entry 5 4 objects.now i) < 9223372036854775808) }
    requires label_bound { (p.label < 9223372036854775808) × (p.face < 9223372036854775808) }
    ensures { Behind objects.now groups.now i p result }
{
    let first = p.group;
    let group = first + number(objects, 5, 4, i);
    let labels = sum(groups, 2, 0, first, group, ANY);
    let faces = sum(groups, 2, 1, first, group, ANY);
    Place {
        name: p.name + number(objects, 5, 0, i),
        vertex: p.vertex + number(objects, 5, 1, i),
        corner: p.corner + number(objects, 5, 2, i),
        word: p.word + number(objects, 5, 3, i),
        group,
        label: p.label + labels,
        face: p.face + faces,
    }
}

// Object i, between two places.
fn put_object(
    rows: &FlatRows,
    from: usize,
    i: usize,
    p: Place,
    q: Place,
    at: usize,
    out: &mut [u8],
) -> usize
    requires at { At rows.now.objects.now rows.now.groups.now from i p × Behind rows.now.objects.now rows.now.groups.now i p q ×
        WritableIn rows.now from i }
    requires i_in_bounds { at + object_bytes rows.now.objects.now rows.now.groups.now i ≤ length out.old }
    ensures { Put out.old at (pieces_in rows.now from i) out.new result }
{
    let size = object_size(rows.objects, rows.groups, i, p.group);
    let lists = put_lists(
        &rows.names[p.name..q.name],
        &rows.vertices[p.vertex..q.vertex],
        &rows.corners[p.corner..q.corner],
        size,
        at,
        out,
    );
    let grouped = put_groups(
        rows.names,
        rows.groups,
        rows.faces,
        from,
        p.group,
        q.group - p.group,
        p.label,
        p.face,
        lists,
        out,
    );
    put_smoothing(&rows.smoothing[p.word..q.word], grouped, out)
}

// The first n objects.
fn put_objects(rows: &FlatRows, from: usize, n: usize, at: usize, out: &mut [u8]) -> usize
    requires by_index { ((i : ℕ) → i < n → WritableIn rows.now from i) × (from < 9223372036854775808) }
    requires n_in_bounds { at + total (object_bytes rows.now.objects.now rows.now.groups.now) (run (λ i. i) 0 n) ≤ length out.old }
    ensures { Put out.old at (over (pieces_in rows.now from) (run (λ i. i) 0 n)) out.new result }
{
    let mut p = Place {
        name: 0,
        vertex: 0,
        corner: 0,
        word: 0,
        group: 0,
        label: from,
        face: 0,
    };
    let mut next = at;
    for i in 0..n {
        let q = next_place(rows.objects, rows.groups, i, p);
        next = put_object(rows, from, i, p, q, next, out);
        p = q;
    }
    next
}

// The whole figure, of `size` bytes, at the front of out: the materials, then the objects.
pub fn put_figure(rows: &FlatRows, size: usize, out: &mut [u8]) -> usize
    requires { judged_flat (given rows.now) (length out.old) ≡ Ok size }
    ensures { Put out.old 0 (flat_bytes (given rows.now)) out.new result }
{
    let n = rows.objects.len() / 5;
    let first = sum(rows.objects, 5, 0, 0, n, ANY);
    let from = first + sum(rows.materials, 1, 0, 0, rows.materials.len(), ANY);
    let scene = put_header(0x4D4D, size, 0, out);
    let inside = put_header(0x3D3D, size - scene, scene, out);
    let next = put_materials(rows.names, first, rows.materials, rows.colours, inside, out);
    put_objects(rows, from, n, next, out)
}
