// All meshes of a Caligari file in one call: eight numbers each, into a lent row of bytes. The file is checked first, and nothing is
// written before room for all meshes is there. Linear in the file: the check, and two passes over the chunks.
#![tactic(auto)]

ghost use Rattle.std.specs.Prelude.{◌≡◌, true, cond, [], ◌∷◌, ◌+◌, ◌*◌, ◌<◌, ◌≤◌, length, drop};
ghost use Rattle.shared_words.specs.Bytes.{packed};
ghost use Rattle.shared_numbers.specs.Put.{Put};
ghost use Rattle.cob_rules.specs.declared.Kind.{Kind};
ghost use Rattle.cob_rules.specs.Kinds.{listed};
ghost use Rattle.cob_rules.specs.Body.{exact};
ghost use Rattle.cob_rules.specs.Mesh.{faces_at};
ghost use Rattle.cob_rules.specs.Layout.{kind};
ghost use Rattle.cob_mesh.specs.Laid.{Whole};
ghost use Rattle.cob_chunk.specs.Chunks.{chunk_in};
ghost use Rattle.cob_tables.specs.Asked.{Readable};
ghost use Rattle.cob_meshes_rules.specs.Standing.{face_count, mesh_numbers};
ghost use Rattle.cob_meshes_rules.specs.Calls.{mesh_bytes, meshes_call};
ghost use Rattle.cob_meshes.specs.Meshes.{numbers_of, MeshAt, PutMesh, Counts, SomeRoom, Fills};

use cob_check::check;
use cob_chunk::{chunk_end, is_end, is_listed, is_mesh, kind_at};
use cob_mesh::{face_at, lists_of};
use cob_tables::{count_mesh, count_triangles};
use shared_numbers::{long_at, put_long, wide};
use shared_words::Refusal;

// ---- one mesh

// What is told of a mesh.
#[derive(Clone, Copy)]
struct Numbers {
    name: u32,
    size: u32,
    position: u32,
    vertices: u32,
    floats: u32,
    faces: u32,
    given: u32,
    record: u32,
}

// How many of so many faces and holes are faces.
fn count_faces(s: &[u8], at: usize, count: usize) -> usize
    requires { Whole s.now at count }
    ensures { (result ≡ face_count (faces_at count (drop at s.now))) × (result ≤ count) }
{
    let mut o = at;
    let mut n = 0usize;
    for _ in 0..count {
        let f = face_at(s, o);
        n += !f.hole as usize;
        o = f.at + 8 * f.count;
    }
    n
}

// The mesh of a body, whose chunk stands at an offset and has a number in the list.
fn numbers_of(body: &[u8], at: usize, number: usize) -> Numbers
    requires { (exact Kind.PolH body.now ≡ true) × (at + 20 + length body.now ≤ 1048576) × (number < 4294967296) }
    ensures { numbers_of result ≡ mesh_numbers record { at = at; number = number; body = body.now } }
{
    let l = lists_of(body);
    let floats = at + 20 + l.vertices + 4;
    let count = wide(long_at(body, l.faces));
    let faces = count_faces(body, l.faces + 4, count);
    let given = count_triangles(body, l.faces + 4, count);
    Numbers {
        name: (at + 24) as u32,
        size: (l.vertices - 100) as u32,
        position: (floats - 52) as u32,
        vertices: long_at(body, l.vertices),
        floats: floats as u32,
        faces: faces as u32,
        given: given as u32,
        record: number as u32,
    }
}

// Its numbers at a position; answers the position behind them.
fn put_numbers(m: Numbers, at: usize, row: &mut [u8]) -> usize
    requires { at + 32 ≤ length row.old }
    ensures { Put row.old at (packed 4 (numbers_of m)) row.new result }
{
    let size = put_long(m.name, at, row);
    let position = put_long(m.size, size, row);
    let vertices = put_long(m.position, position, row);
    let floats = put_long(m.vertices, vertices, row);
    let faces = put_long(m.floats, floats, row);
    let given = put_long(m.faces, faces, row);
    let record = put_long(m.given, given, row);
    put_long(m.record, record, row)
}

// ---- all of them

// 1 for a chunk that is in the list, 0 for any other.
fn count_record(file: &[u8], at: usize) -> usize
    requires { at + 20 ≤ length file.now }
    ensures { (result ≡ cond (listed (kind (chunk_in file.now at))) 1 0) × (result ≤ 1) }
{
    is_listed(kind_at(file, at)) as usize
}

// The chunk at an offset, which ends at `next`, if it is a mesh, at a position of the row; answers the position behind it.
fn put_mesh(file: &[u8], at: usize, next: usize, number: usize, to: usize, row: &mut [u8]) -> usize
    requires { MeshAt file.now at next number to (length row.old) }
    ensures { PutMesh file.now at next number row.old to row.new result }
{
    if !is_mesh(kind_at(file, at)) {
        return to;
    }
    let m = numbers_of(&file[at + 20..next], at, number);
    put_numbers(m, to, row)
}

// How many meshes an accepted file has.
fn count_meshes(file: &[u8]) -> usize
    requires { Readable file.now }
    ensures { Counts file.now result }
{
    let mut at = 32usize;
    let mut n = 0usize;
    // a `while`: each chunk's size tells where the next begins
    while !is_end(kind_at(file, at)) {
        n += count_mesh(file, at);
        at = chunk_end(file, at);
    }
    n
}

// The meshes of an accepted file, into the front of a row that has room for them.
fn fill(file: &[u8], row: &mut [u8])
    requires { SomeRoom file.now (length row.old) }
    ensures { Fills file.now row.old row.new }
{
    let mut at = 32usize;
    let mut number = 0usize;
    let mut to = 0usize;
    // a `while`: each chunk's size tells where the next begins
    while !is_end(kind_at(file, at)) {
        let next = chunk_end(file, at);
        to = put_mesh(file, at, next, number, to, row);
        number += count_record(file, at);
        at = next;
    }
}

// The meshes of a file, in file order, eight numbers each, four bytes a number. Answers how many there are, or the refusal, which
// leaves the row as it was.
pub fn meshes(file: &[u8], row: &mut [u8]) -> Result<usize, Refusal>
    ensures answer { result ≡ (meshes_call mesh_bytes file.now row.old).answer }
    ensures row { row.new ≡ (meshes_call mesh_bytes file.now row.old).rows }
{
    check(file)?;
    let n = count_meshes(file);
    if row.len() / 32 < n {
        return Err(Refusal::NoRoom(n));
    }
    fill(file, row);
    Ok(n)
}
