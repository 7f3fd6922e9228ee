// The chunks of a figure. Each function puts bytes at a position of out, and answers the position behind them.
#![tactic(auto)]

ghost use Rattle.std.specs.Prelude.{◌≡◌, true, List, ℕ, ◌+◌, ◌-◌, ◌*◌, ◌%◌, ◌<◌, ◌≤◌, length, drop};
ghost use Rattle.shared_words.specs.Lists.{every};
ghost use Rattle.shared_words.specs.Bytes.{le};
ghost use Rattle.shared_numbers.specs.Put.{Put};
ghost use Rattle.studio_rules.specs.Layout.{end, bytes};
ghost use Rattle.studio_write_judge.specs.Judged.{triples, finite_float};
ghost use Rattle.studio_figure_rules.specs.Given.{over, rgb};
ghost use Rattle.studio_figure_rules.specs.Built.{smoothing_chunk, colour_chunk};
ghost use Rattle.studio_figure_rules.specs.Described.{colour};
ghost use Rattle.studio_figure_rows.specs.Rows.{entry, sum_to, run};
ghost use Rattle.studio_figure_objects.specs.Asked.{from};
ghost use Rattle.studio_figure_objects.specs.Sizes.{size_of_words, between};
ghost use Rattle.studio_figure_chunks.specs.Chunks.{material_bytes, group_bytes, material_with, material_in, group_of, group_in, lists_bytes};

use shared_numbers::{put_long, put_word};
use studio_figure_rows::number;
use studio_write_bytes::{put_faces, put_header, put_name, put_vertex_list};

// ---- rows

// Three bytes of a row: red, green, blue.
fn put_three(row: &[u8], first: usize, at: usize, out: &mut [u8]) -> usize
    requires { (first + 3 ≤ length row.now) × (at + 3 ≤ length out.old) }
    ensures { Put out.old at (rgb (colour (drop first row.now))) out.new result }
{
    let end = at + 3;
    out[at..end].copy_from_slice(&row[first..first + 3]);
    end
}

// A number, and its bytes as they stand in the file.
trait Number: Copy {
    ghost bytes: { Self → List ℕ };

    // The bytes at a position of out; answers the position behind them.
    fn put(self, at: usize, out: &mut [u8]) -> usize
        requires { at + length (bytes self) ≤ length out.old }
        ensures { Put out.old at (bytes self) out.new result };
}

impl Number for u16 {
    ghost bytes = { le 2 };

    fn put(self, at: usize, out: &mut [u8]) -> usize {
        put_word(self, at, out)
    }
}

impl Number for u32 {
    ghost bytes = { le 4 };

    fn put(self, at: usize, out: &mut [u8]) -> usize {
        put_long(self, at, out)
    }
}

// Numbers one behind another.
fn put_numbers<N: Number>(row: &[N], at: usize, out: &mut [u8]) -> usize
    requires { at + length (over N.bytes row.now) ≤ length out.old }
    ensures { Put out.old at (over N.bytes row.now) out.new result }
{
    let mut next = at;
    for x in row {
        next = x.put(next, out);
    }
    next
}

// ---- a material

// A010, A020 or A030, with its 0011.
fn put_colour(id: u16, row: &[u8], first: usize, at: usize, out: &mut [u8]) -> usize
    requires { (first + 3 ≤ length row.now) × (at + 15 ≤ length out.old) }
    ensures { Put out.old at (bytes (colour_chunk id (colour (drop first row.now)) end)) out.new result }
{
    let inside = put_header(id, 15, at, out);
    let own = put_header(0x0011, 9, inside, out);
    put_three(row, first, own, out)
}

// The AFFF of material i.
fn put_material(name: &[u8], colours: &[u8], i: usize, at: usize, out: &mut [u8]) -> usize
    requires { (9 * i + 9 ≤ length colours.now) × (length name.now ≤ 1048576) × (at + 58 + length name.now ≤ length out.old) }
    ensures { Put out.old at (material_bytes (material_with name.now colours.now i)) out.new result }
{
    let len = name.len();
    let label = put_header(0xAFFF, 58 + len, at, out);
    let text = put_header(0xA000, 7 + len, label, out);
    let ambient = put_name(name, text, out);
    let first = 9 * i;
    let diffuse = put_colour(0xA010, colours, first, ambient, out);
    let specular = put_colour(0xA020, colours, first + 3, diffuse, out);
    put_colour(0xA030, colours, first + 6, specular, out)
}

// All materials, whose names begin at `first`.
pub fn put_materials(
    names: &[u8],
    first: usize,
    materials: &[u32],
    colours: &[u8],
    at: usize,
    out: &mut [u8],
) -> usize
    requires materials_in_bounds { (first + sum_to 1 0 materials.now (length materials.now) ≤ length names.now) × (9 * length materials.now ≤ length colours.now) }
    requires materials_bound { (sum_to 1 0 materials.now (length materials.now) ≤ 1048576) ×
        (at + (58 * length materials.now + sum_to 1 0 materials.now (length materials.now)) ≤ length out.old) }
    ensures { Put out.old at (over material_bytes (run
        (material_in names.now materials.now colours.now first) 0 (length materials.now))) out.new result }
{
    let mut label = first;
    let mut next = at;
    for i in 0..materials.len() {
        let end = label + number(materials, 1, 0, i);
        next = put_material(&names[label..end], colours, i, next, out);
        label = end;
    }
    next
}

// ---- an object

// The 4000 up to its faces, where the object has `size` bytes: the chunks around them end where the object ends.
pub fn put_lists(
    name: &[u8],
    vertices: &[f32],
    corners: &[u16],
    size: usize,
    at: usize,
    out: &mut [u8],
) -> usize
    requires vertices_len { (length vertices.now % 3 ≡ 0) × (length vertices.now ≤ 196605) × (every finite_float vertices.now ≡ true) ×
        (length corners.now ≤ 196605) }
    requires corners_bound { (29 + length name.now + 12 * triples vertices.now + 8 * triples corners.now ≤ size) × (size ≤ 1048576) ×
        (at + size ≤ length out.old) }
    ensures { Put out.old at (lists_bytes name.now vertices.now corners.now size) out.new result }
{
    let end = at + size;
    let label = put_header(0x4000, size, at, out);
    let mesh = put_name(name, label, out);
    let lists = put_header(0x4100, end - mesh, mesh, out);
    let list = put_vertex_list(vertices, lists, out);
    let count = put_header(0x4120, end - list, list, out);
    let faces = put_word((corners.len() / 3) as u16, count, out);
    put_faces(corners, faces, out)
}

// A 4130.
fn put_group(name: &[u8], faces: &[u16], at: usize, out: &mut [u8]) -> usize
    requires { (length faces.now ≤ 65535) × (length name.now ≤ 1048576) × (at + (9 + length name.now + 2 * length faces.now) ≤ length out.old) }
    ensures { Put out.old at (group_bytes (group_of name.now faces.now)) out.new result }
{
    let label = put_header(0x4130, 9 + name.len() + 2 * faces.len(), at, out);
    let count = put_name(name, label, out);
    let first = put_word(faces.len() as u16, count, out);
    put_numbers(faces, first, out)
}

// n groups from number `first` on; where the names of all groups begin, and the name and faces of the first of these.
pub fn put_groups(
    names: &[u8],
    groups: &[u32],
    faces: &[u16],
    from: usize,
    first: usize,
    n: usize,
    name: usize,
    face: usize,
    at: usize,
    out: &mut [u8],
) -> usize
    requires n_in_bounds { (2 * (first + n) ≤ length groups.now) × (name ≡ from + sum_to 2 0 groups.now first) × (face ≡ sum_to 2 1 groups.now first) }
    requires n_in_bounds_2 { (from + sum_to 2 0 groups.now (first + n) ≤ length names.now) × (sum_to 2 1 groups.now (first + n) ≤ length faces.now) }
    requires by_index { ((j : ℕ) → j < n → entry 2 1 groups.now (first + j) ≤ 65535) × (between 0 groups.now first n ≤ 1048576) ×
        (at + (9 * n + between 0 groups.now first n + 2 * between 1 groups.now first n) ≤ length out.old) }
    ensures { Put out.old at (over (λ j. group_bytes
        (group_in names.now groups.now faces.now from (first + j))) (run (λ j. j) 0 n)) out.new result }
{
    let mut label = name;
    let mut place = face;
    let mut next = at;
    for i in 0..n {
        let end = label + number(groups, 2, 0, first + i);
        let last = place + number(groups, 2, 1, first + i);
        next = put_group(&names[label..end], &faces[place..last], next, out);
        label = end;
        place = last;
    }
    next
}

// The 4150, where there are smoothing words.
pub fn put_smoothing(words: &[u32], at: usize, out: &mut [u8]) -> usize
    requires { (length words.now ≤ 1048576) × (at + size_of_words (length words.now) ≤ length out.old) }
    ensures { Put out.old at (bytes (smoothing_chunk words.now)) out.new result }
{
    if words.is_empty() {
        return at;
    }
    let own = put_header(0x4150, 6 + 4 * words.len(), at, out);
    put_numbers(words, own, out)
}
