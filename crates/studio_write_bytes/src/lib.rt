// The bytes of a bare figure. Each function puts bytes at a position of out, and answers the position behind them.
#![tactic(auto)]

ghost use Rattle.std.specs.Prelude.{◌≡◌, true, [], ◌∷◌, map, ◌+◌, ◌*◌, ◌%◌, ◌<◌, ◌≤◌, length};
ghost use Rattle.std.specs.Float.{binary32};
ghost use Rattle.std.specs.Float.Ieee.{to_bits};
ghost use Rattle.shared_words.specs.Lists.{every};
ghost use Rattle.shared_words.specs.Bytes.{packed};
ghost use Rattle.studio_rules.specs.Layout.{end, known, header, bytes};
ghost use Rattle.shared_numbers.specs.Put.{Put};
ghost use Rattle.studio_write_judge.specs.Judged.{triples, finite_float, judged};
ghost use Rattle.studio_write_bytes.specs.Bare.{face_words, name_data, vertex_data, face_data, bare_bytes};

use shared_copy::put_part;
use shared_numbers::{put_long, put_word};

// The header of a chunk.
pub fn put_header(id: u16, len: usize, at: usize, out: &mut [u8]) -> usize
    requires { (len < 4294967296) × (at + 6 ≤ length out.old) }
    ensures { Put out.old at (header id len) out.new result }
{
    put_long(len as u32, put_word(id, at, out), out)
}

// A name and its zero.
pub fn put_name(name: &[u8], at: usize, out: &mut [u8]) -> usize
    requires { at + length name.now + 1 ≤ length out.old }
    ensures { Put out.old at (name_data name.now) out.new result }
{
    let end = put_part(name, 0, name.len(), at, out);
    out[end] = 0;
    end + 1
}

// Floats, each as its 32 bits. Of a float that is not a number no bits are known.
fn put_floats(vertices: &[f32], at: usize, out: &mut [u8]) -> usize
    requires vertices_value { every finite_float vertices.now ≡ true }
    requires vertices_in_bounds { at + 4 * length vertices.now ≤ length out.old }
    ensures { Put out.old at (packed 4 (map (to_bits binary32) vertices.now)) out.new result }
{
    let mut next = at;
    for x in vertices {
        next = put_long(x.to_bits(), next, out);
    }
    next
}

// A face: three corner words and a flag word.
fn put_face(a: u16, b: u16, c: u16, at: usize, out: &mut [u8]) -> usize
    requires { at + 8 ≤ length out.old }
    ensures { Put out.old at (packed 2 (a ∷ b ∷ c ∷ 0 ∷ [])) out.new result }
{
    let second = put_word(a, at, out);
    let third = put_word(b, second, out);
    let flag = put_word(c, third, out);
    put_word(0, flag, out)
}

// The faces of a row of corners.
pub fn put_faces(corners: &[u16], at: usize, out: &mut [u8]) -> usize
    requires { at + 8 * triples corners.now ≤ length out.old }
    ensures { Put out.old at (packed 2 (face_words (triples corners.now) corners.now)) out.new result }
{
    let f = corners.len() / 3;
    let mut next = at;
    for i in 0..f {
        let j = 3 * i;
        next = put_face(corners[j], corners[j + 1], corners[j + 2], next, out);
    }
    next
}

// The chunk 4110.
pub fn put_vertex_list(vertices: &[f32], at: usize, out: &mut [u8]) -> usize
    requires vertices_len { (length vertices.now % 3 ≡ 0) × (length vertices.now ≤ 196605) × (every finite_float vertices.now ≡ true) }
    requires vertices_in_bounds { at + 8 + 12 * triples vertices.now ≤ length out.old }
    ensures { Put out.old at (bytes (known 0x4110 (vertex_data vertices.now) end end)) out.new result }
{
    let n = vertices.len() / 3;
    let count = put_header(0x4110, 8 + 12 * n, at, out);
    let floats = put_word(n as u16, count, out);
    put_floats(vertices, floats, out)
}

// The chunk 4120.
fn put_face_list(corners: &[u16], at: usize, out: &mut [u8]) -> usize
    requires corners_len_bound { length corners.now ≤ 196605 }
    requires corners_in_bounds { at + 8 + 8 * triples corners.now ≤ length out.old }
    ensures { Put out.old at (bytes (known 0x4120 (face_data corners.now) end end)) out.new result }
{
    let f = corners.len() / 3;
    let count = put_header(0x4120, 8 + 8 * f, at, out);
    let faces = put_word(f as u16, count, out);
    put_faces(corners, faces, out)
}

// The whole figure, of `size` bytes, at the front of out. The chunks around the two lists end where the file ends.
pub fn put_figure(
    name: &[u8],
    vertices: &[f32],
    corners: &[u16],
    size: usize,
    out: &mut [u8],
) -> usize
    requires { judged name.now vertices.now corners.now (length out.old) ≡ Ok size }
    ensures { Put out.old 0 (bare_bytes name.now vertices.now corners.now) out.new result }
{
    let scene = put_header(0x4D4D, size, 0, out);
    let object = put_header(0x3D3D, size - scene, scene, out);
    let label = put_header(0x4000, size - object, object, out);
    let mesh = put_name(name, label, out);
    let lists = put_header(0x4100, size - mesh, mesh, out);
    put_face_list(corners, put_vertex_list(vertices, lists, out), out)
}
