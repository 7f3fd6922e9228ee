// Where a body ends: the position behind its parts, for each of the four types and any other. Each function answers for what
// stands from a position of a slice on, with None where it does not fit; `Ends` says it by the rules' own reading.
#![tactic(auto)]

ghost use Rattle.std.specs.Prelude.{◌+◌, ◌≤◌, length, [], ◌∷◌, ◌++◌};
ghost use Rattle.cob_rules.specs.Kinds.{natural, times, faces, optional, string, group, vertices, textures, parts};
ghost use Rattle.cob_rules.specs.Body.{skip, face, face_run, map_data, behind, behind_all};
ghost use Rattle.cob_rules.specs.declared.Kind.{Kind};
ghost use Rattle.cob_body.specs.Ends.{Ends, Counts};

use cob_rules::Kind;
use shared_numbers::{long_at, wide, word_at};

// So many bytes.
fn skip_bytes(s: &[u8], at: usize, k: usize) -> Option<usize>
    requires { at ≤ length s.now }
    ensures { Ends (skip k) s.now at result }
{
    if s.len() - at < k {
        return None;
    }
    Some(at + k)
}

// A count of 2 bytes. It stands beside `long_count`, whose reader and limit are others: a trait over the two widths, with a type
// for each, would be longer than both.
fn short_count(s: &[u8], at: usize) -> Option<usize>
    requires { at ≤ length s.now }
    ensures { Counts 2 s.now at result }
{
    if s.len() - at < 2 {
        return None;
    }
    let n = word_at(s, at);
    if 32768 <= n {
        return None;
    }
    Some(wide(n))
}

// A count of 4 bytes.
fn long_count(s: &[u8], at: usize) -> Option<usize>
    requires { at ≤ length s.now }
    ensures { Counts 4 s.now at result }
{
    if s.len() - at < 4 {
        return None;
    }
    let n = long_at(s, at);
    if 2147483648 <= n {
        return None;
    }
    Some(wide(n))
}

// ---- parts

// A number of 2 bytes that is not negative.
fn natural_end(s: &[u8], at: usize) -> Option<usize>
    requires { at ≤ length s.now }
    ensures { Ends (behind (natural 2)) s.now at result }
{
    short_count(s, at)?;
    Some(at + 2)
}

// A string: its length, and its bytes.
fn string_end(s: &[u8], at: usize) -> Option<usize>
    requires { at ≤ length s.now }
    ensures { Ends (behind string) s.now at result }
{
    let n = short_count(s, at)?;
    skip_bytes(s, at + 2, n)
}

// A list: a count of 4 bytes, and as many times k bytes.
fn list_end(s: &[u8], at: usize, k: usize) -> Option<usize>
    requires { (at ≤ length s.now) × (k ≤ 12) }
    ensures { Ends (behind (times 4 k)) s.now at result }
{
    let n = long_count(s, at)?;
    skip_bytes(s, at + 4, k * n)
}

// A face or a hole.
fn face_end(s: &[u8], at: usize) -> Option<usize>
    requires { at ≤ length s.now }
    ensures { Ends face s.now at result }
{
    if s.len() <= at {
        return None;
    }
    let flags = s[at];
    let n = short_count(s, at + 1)?;
    if flags / 8 % 2 == 1 {
        skip_bytes(s, at + 3, 8 * n)
    } else {
        skip_bytes(s, at + 3, 2 + 8 * n)
    }
}

// So many faces and holes.
fn run_end(s: &[u8], at: usize, n: usize) -> Option<usize>
    requires { at ≤ length s.now }
    ensures { Ends (face_run n) s.now at result }
{
    let mut o = at;
    for _ in 0..n {
        o = face_end(s, o)?;
    }
    Some(o)
}

// A list of faces and holes.
fn faces_end(s: &[u8], at: usize) -> Option<usize>
    requires { at ≤ length s.now }
    ensures { Ends (behind faces) s.now at result }
{
    let n = long_count(s, at)?;
    run_end(s, at + 4, n)
}

// What stands behind the letter of a map: its flags, a string and k bytes.
fn map_data_end(s: &[u8], at: usize, k: usize) -> Option<usize>
    requires { at ≤ length s.now }
    ensures { Ends (map_data k) s.now at result }
{
    let path = skip_bytes(s, at, 3)?;
    let rest = string_end(s, path)?;
    skip_bytes(s, rest, k)
}

// A map, where its letter and a colon stand.
fn map_end(s: &[u8], at: usize, letter: u8, k: usize) -> Option<usize>
    requires { at ≤ length s.now }
    ensures { Ends (behind (optional letter k)) s.now at result }
{
    if s[at..].starts_with(&[letter, b':']) {
        map_data_end(s, at, k)
    } else {
        Some(at)
    }
}

// ---- bodies

// The name, axes and position that a group and a mesh begin with.
pub fn group_end(s: &[u8]) -> Option<usize>
    ensures { Ends (behind_all group) s.now 0 result }
{
    let name = natural_end(s, 0)?;
    let axes = string_end(s, name)?;
    let position = skip_bytes(s, axes, 48)?;
    skip_bytes(s, position, 48)
}

// A mesh as far as its list of texture vertices.
pub fn vertices_end(s: &[u8]) -> Option<usize>
    ensures { Ends (behind_all (group ++ (vertices ∷ []))) s.now 0 result }
{
    let at = group_end(s)?;
    list_end(s, at, 12)
}

// A mesh as far as its list of faces.
pub fn textures_end(s: &[u8]) -> Option<usize>
    ensures { Ends (behind_all (group ++ (vertices ∷ textures ∷ []))) s.now 0 result }
{
    let at = vertices_end(s)?;
    list_end(s, at, 8)
}

fn mesh_end(s: &[u8]) -> Option<usize>
    ensures { Ends (behind_all (parts Kind.PolH)) s.now 0 result }
{
    let at = textures_end(s)?;
    faces_end(s, at)
}

fn material_end(s: &[u8]) -> Option<usize>
    ensures { Ends (behind_all (parts Kind.Mat1)) s.now 0 result }
{
    let environment = skip_bytes(s, 0, 37)?;
    let texture = map_end(s, environment, b'e', 0)?;
    let bump = map_end(s, texture, b't', 16)?;
    map_end(s, bump, b'b', 20)
}

// The position behind the parts of a kind.
pub fn body_end(kind: Kind, s: &[u8]) -> Option<usize>
    ensures { Ends (behind_all (parts kind)) s.now 0 result }
{
    match kind {
        Kind::End => Some(0),
        Kind::Grou => group_end(s),
        Kind::PolH => mesh_end(s),
        Kind::Mat1 => material_end(s),
        Kind::Other => Some(s.len()),
    }
}
