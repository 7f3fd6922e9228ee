// What stands in the body of a PolH: where its lists stand, one face, and whether floats and indices are allowed. The body
// fits its parts exactly, which the caller has judged before.
#![tactic(auto)]

ghost use Rattle.std.specs.Prelude.{◌≡◌, true, not, ◌&&◌, ◌+◌, ◌*◌, ◌≤◌, length, drop};
ghost use Rattle.shared_words.specs.Bytes.{numbers};
ghost use Rattle.shared_words.specs.Lists.{every};
ghost use Rattle.shared_words.specs.Floats.{finite};
ghost use Rattle.shared_numbers.specs.Numbers.{long_at};
ghost use Rattle.cob_rules.specs.declared.Kind.{Kind};
ghost use Rattle.cob_rules.specs.Body.{face, fits, exact};
ghost use Rattle.cob_rules.specs.Mesh.{all_finite, face_first, faces_of, all_below, faces_at};
ghost use Rattle.cob_mesh.specs.Laid.{Laid, FaceAt, Whole, all_corners, faces_below, judged};

use cob_body::{group_end, textures_end, vertices_end};
use shared_numbers::{long_at, wide, word_at};
use studio_scan::all_finite;

// Where the counts of the three lists stand.
#[derive(Clone, Copy)]
pub struct Lists {
    pub vertices: usize,
    pub textures: usize,
    pub faces: usize,
}

// A face or a hole: where its corners stand, and how many there are.
#[derive(Clone, Copy)]
pub struct Corners {
    pub hole: bool,
    pub at: usize,
    pub count: usize,
}

// Refusal 11 or 12, whichever is due first.
#[derive(Clone, Copy, Debug, PartialEq, Eq)]
pub enum Fault {
    Number,
    Index,
}

// Where the lists of a mesh stand.
pub fn lists_of(body: &[u8]) -> Lists
    requires { exact Kind.PolH body.now ≡ true }
    ensures { Laid body.now result }
{
    let vertices = group_end(body).unwrap();
    let textures = vertices_end(body).unwrap();
    let faces = textures_end(body).unwrap();
    Lists {
        vertices,
        textures,
        faces,
    }
}

// The face or hole at a position.
pub fn face_at(s: &[u8], at: usize) -> Corners
    requires { fits (face (drop at s.now)) ≡ true }
    ensures { FaceAt s.now at result }
{
    let flags = s[at];
    let count = wide(word_at(s, at + 1));
    if flags / 8 % 2 == 1 {
        Corners {
            hole: true,
            at: at + 3,
            count,
        }
    } else {
        Corners {
            hole: false,
            at: at + 5,
            count,
        }
    }
}

// Whether the corners at a position are below the counts of vertices and of texture vertices.
fn corners_below(s: &[u8], at: usize, count: usize, vertices: u32, textures: u32) -> bool
    requires { at + 8 * count ≤ length s.now }
    ensures { result ≡ all_corners vertices textures count (drop at s.now) }
{
    for i in 0..count {
        let o = at + 8 * i;
        if vertices <= long_at(s, o) {
            return false;
        }
        if textures <= long_at(s, o + 4) {
            return false;
        }
    }
    true
}

// Whether the corners of so many faces are.
fn faces_below(s: &[u8], at: usize, count: usize, vertices: u32, textures: u32) -> bool
    requires { Whole s.now at count }
    ensures { result ≡ faces_below vertices textures (faces_at count (drop at s.now)) }
{
    let mut o = at;
    for _ in 0..count {
        let f = face_at(s, o);
        if !corners_below(s, f.at, f.count, vertices, textures) {
            return false;
        }
        o = f.at + 8 * f.count;
    }
    true
}

// Whether the first of so many faces is none: a hole before any face.
pub fn hole_first(s: &[u8], at: usize, count: usize) -> bool
    requires { Whole s.now at count }
    ensures { result ≡ not (face_first (faces_at count (drop at s.now))) }
{
    if count == 0 {
        return false;
    }
    let f = face_at(s, at);
    f.hole
}

// Whether the floats of a list are finite, k of them an entry.
fn list_finite(s: &[u8], at: usize, k: usize) -> bool
    requires { (k ≤ 3) × (at + 4 + 4 * (k * long_at s.now at) ≤ length s.now) }
    ensures { result ≡ every finite (numbers 4 (k * long_at s.now at) (drop (at + 4) s.now)) }
{
    let count = wide(long_at(s, at));
    all_finite(s, at + 4, k * count)
}

// Whether no hole comes first and all indices are below their counts.
fn indices_good(body: &[u8], l: Lists) -> bool
    requires { Laid body.now l }
    ensures { result ≡ (face_first (faces_of body.now) && all_below body.now) }
{
    let vertices = long_at(body, l.vertices);
    let textures = long_at(body, l.textures);
    let count = wide(long_at(body, l.faces));
    let at = l.faces + 4;
    if hole_first(body, at, count) {
        return false;
    }
    faces_below(body, at, count, vertices, textures)
}

// The refusal of a mesh, if there is one.
pub fn judge(body: &[u8]) -> Result<(), Fault>
    requires { exact Kind.PolH body.now ≡ true }
    ensures { result ≡ judged (all_finite body.now) (face_first (faces_of body.now) && all_below body.now) }
{
    let l = lists_of(body);
    if !list_finite(body, l.vertices, 3) {
        return Err(Fault::Number);
    }
    if !list_finite(body, l.textures, 2) {
        return Err(Fault::Number);
    }
    if !indices_good(body, l) {
        return Err(Fault::Index);
    }
    Ok(())
}
