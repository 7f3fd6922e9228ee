// The mesh of a number: where its body stands, and its sizes and tables into lent rows.
#![tactic(auto)]

ghost use Rattle.std.specs.Prelude.{◌≡◌, true, cond, ◌+◌, ◌*◌, ◌<◌, ◌≤◌, length, drop};
ghost use Rattle.shared_words.specs.Bytes.{packed};
ghost use Rattle.shared_words.specs.Effects.{filled};
ghost use Rattle.shared_words.specs.Encodings.{number_bytes};
ghost use Rattle.cob_rules.specs.declared.Kind.{Kind};
ghost use Rattle.cob_rules.specs.Kinds.{is_mesh};
ghost use Rattle.cob_rules.specs.Layout.{kind};
ghost use Rattle.cob_rules.specs.Body.{exact};
ghost use Rattle.cob_rules.specs.Mesh.{faces_at, triangles, corners_of};
ghost use Rattle.cob_rules.specs.Gives.{mesh_in};
ghost use Rattle.cob_rules.specs.Calls.{give, sizes_of, sizes_call, tables_call};
ghost use Rattle.cob_mesh.specs.Laid.{Whole};
ghost use Rattle.cob_chunk.specs.Chunks.{chunk_in};
ghost use Rattle.cob_tables.specs.Asked.{Readable, FoundIs, AskedIs};
ghost use Rattle.cob_tables.specs.Triangles.{TriangleAt, TriangleFits, PutTriangle};
ghost use Rattle.cob_tables.specs.Rows.{rows, TablesAre};

use cob_check::check;
use cob_chunk::{chunk_end, is_end, is_mesh, kind_at};
use cob_mesh::{face_at, hole_first, lists_of};
use shared_numbers::{long_at, put_long, wide};
use shared_words::Refusal;
use studio_mesh_rows::fill_float_bytes;

// ---- the mesh that is asked for

// Where the body of a mesh stands.
#[derive(Clone, Copy)]
struct Span {
    from: usize,
    to: usize,
}

// 1 for a mesh, 0 for any other chunk.
pub fn count_mesh(file: &[u8], at: usize) -> usize
    requires { at + 20 ≤ length file.now }
    ensures { (result ≡ cond (is_mesh (kind (chunk_in file.now at))) 1 0) × (result ≤ 1) }
{
    is_mesh(kind_at(file, at)) as usize
}

// The mesh of a number in an accepted file, or the refusal that tells how many there are.
fn find_mesh(file: &[u8], mesh: usize) -> Result<Span, Refusal>
    requires { Readable file.now × (mesh < 4294967296) }
    ensures { FoundIs file.now mesh result }
{
    let mut at = 32usize;
    let mut n = 0usize;
    // a `while`: each chunk's size tells where the next begins
    while !is_end(kind_at(file, at)) {
        let next = chunk_end(file, at);
        let one = count_mesh(file, at);
        if mesh < n + one {
            return Ok(Span {
                from: at + 20,
                to: next,
            });
        }
        n += one;
        at = next;
    }
    Err(Refusal::NoSuchMesh(n))
}

// The check of the file, then the mesh.
fn ask(file: &[u8], mesh: u32) -> Result<Span, Refusal>
    ensures { AskedIs file.now mesh result }
{
    check(file)?;
    find_mesh(file, wide(mesh))
}

// ---- the faces with three corners and no holes

// A face: where its corners stand, if it is one of them, and where the next face stands.
#[derive(Clone, Copy)]
struct Triangle {
    corners: Option<usize>,
    next: usize,
}

// The first of so many faces.
fn triangle_at(s: &[u8], o: usize, left: usize) -> Triangle
    requires { Whole s.now o left × (0 < left) }
    ensures { TriangleAt s.now o left result }
{
    let f = face_at(s, o);
    let next = f.at + 8 * f.count;
    if f.hole {
        return Triangle {
            corners: None,
            next,
        };
    }
    if f.count != 3 {
        return Triangle {
            corners: None,
            next,
        };
    }
    if hole_first(s, next, left - 1) {
        return Triangle {
            corners: None,
            next,
        };
    }
    Triangle {
        corners: Some(f.at),
        next,
    }
}

// How many of so many faces are.
pub fn count_triangles(s: &[u8], at: usize, count: usize) -> usize
    requires { Whole s.now at count }
    ensures { (result ≡ length (triangles (faces_at count (drop at s.now)))) × (result ≤ count) }
{
    let mut o = at;
    let mut n = 0usize;
    for i in 0..count {
        let t = triangle_at(s, o, count - i);
        n += t.corners.is_some() as usize;
        o = t.next;
    }
    n
}

// Puts the corners of a face, if it is one of them, and answers the position behind them.
fn put_triangle(s: &[u8], t: Triangle, to: usize, row: &mut [u8]) -> usize
    requires { TriangleFits s.now t row.old to }
    ensures { PutTriangle s.now t row.old to row.new result }
{
    let Some(at) = t.corners else {
        return to;
    };
    let second = put_long(long_at(s, at), to, row);
    let third = put_long(long_at(s, at + 8), second, row);
    put_long(long_at(s, at + 16), third, row)
}

// The corners of all of them, into the front of a row.
fn fill_corners(s: &[u8], at: usize, count: usize, row: &mut [u8])
    requires { Whole s.now at count × (4 * length (corners_of (triangles (faces_at count (drop at s.now)))) ≤ length row.old) }
    ensures { row.new ≡ filled (packed 4 (corners_of (triangles (faces_at count (drop at s.now))))) row.old }
{
    let mut o = at;
    let mut to = 0usize;
    for i in 0..count {
        let t = triangle_at(s, o, count - i);
        to = put_triangle(s, t, to, row);
        o = t.next;
    }
}

// ---- the calls

// The sizes of the mesh of a body.
fn put_sizes(body: &[u8], row: &mut [u8]) -> Result<usize, Refusal>
    requires { exact Kind.PolH body.now ≡ true }
    ensures answer { result ≡ (give (number_bytes 4) (sizes_of (mesh_in body.now)) row.old).answer }
    ensures row { row.new ≡ (give (number_bytes 4) (sizes_of (mesh_in body.now)) row.old).rows }
{
    if row.len() / 4 < 2 {
        return Err(Refusal::NoRoom(2));
    }
    let l = lists_of(body);
    let vertices = long_at(body, l.vertices);
    let count = wide(long_at(body, l.faces));
    let faces = count_triangles(body, l.faces + 4, count);
    let behind = put_long(vertices, 0, row);
    put_long(faces as u32, behind, row);
    Ok(2)
}

// The tables of the mesh of a body.
fn put_tables(body: &[u8], vertices: &mut [u8], corners: &mut [u8]) -> Result<usize, Refusal>
    requires { exact Kind.PolH body.now ≡ true }
    ensures { TablesAre (mesh_in body.now) vertices.old corners.old result vertices.new corners.new }
{
    let l = lists_of(body);
    let n = wide(long_at(body, l.vertices));
    if vertices.len() / 4 < 3 * n {
        return Err(Refusal::NoRoom(3 * n));
    }
    let count = wide(long_at(body, l.faces));
    let faces = count_triangles(body, l.faces + 4, count);
    if corners.len() / 4 < 3 * faces {
        return Err(Refusal::NoRoom(3 * faces));
    }
    fill_float_bytes(body, l.vertices + 4, 3 * n, vertices);
    fill_corners(body, l.faces + 4, count, corners);
    Ok(n)
}

// How many vertices and faces a mesh has, as two numbers into a lent row; or a refusal, which leaves the row as it was.
pub fn sizes(file: &[u8], mesh: u32, row: &mut [u8]) -> Result<usize, Refusal>
    ensures answer { result ≡ (sizes_call (number_bytes 4) file.now mesh row.old).answer }
    ensures row { row.new ≡ (sizes_call (number_bytes 4) file.now mesh row.old).rows }
{
    let body = ask(file, mesh)?;
    put_sizes(&file[body.from..body.to], row)
}

// The vertices and the corners of a mesh, into lent rows; answers how many vertices there are, or a refusal, which leaves the
// rows as they were.
pub fn tables(
    file: &[u8],
    mesh: u32,
    vertices: &mut [u8],
    corners: &mut [u8],
) -> Result<usize, Refusal>
    ensures answer { result ≡ (tables_call (number_bytes 4) file.now mesh (rows vertices.old corners.old)).answer }
    ensures rows { rows vertices.new corners.new ≡
        (tables_call (number_bytes 4) file.now mesh (rows vertices.old corners.old)).rows }
{
    let body = ask(file, mesh)?;
    put_tables(&file[body.from..body.to], vertices, corners)
}
