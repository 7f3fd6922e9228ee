// The box around the vertices of a mesh, and its centre.
#![tactic(auto)]

ghost use Rattle.std.specs.Prelude.{◌≡◌, true, ◌+◌, ◌*◌, ◌≤◌, ◌<◌, length, drop};
ghost use Rattle.shared_words.specs.Bytes.{numbers};
ghost use Rattle.shared_words.specs.Lists.{every};
ghost use Rattle.shared_words.specs.Floats.{finite};
ghost use Rattle.studio_rules.specs.Box.{lesser, greater, bounding_box_of, middle, centre_of};
ghost use Rattle.studio_mesh_box.specs.Vertices.{IsVertex, vertex_at, widened};

use shared_numbers::float_at;
use studio_rules::{BoundingBox, Corner};

// The vertex at a position.
fn vertex_at(s: &[u8], at: usize) -> Corner
    requires { IsVertex s.now at }
    ensures { result ≡ vertex_at s.now at }
{
    Corner {
        x: float_at(s, at),
        y: float_at(s, at + 4),
        z: float_at(s, at + 8),
    }
}

fn smaller(a: f32, b: f32) -> f32
    ensures { result ≡ lesser a b }
{
    if b < a { b } else { a }
}

fn larger(a: f32, b: f32) -> f32
    ensures { result ≡ greater a b }
{
    if a < b { b } else { a }
}

// The box that holds a vertex too.
fn with_vertex(b: BoundingBox, v: Corner) -> BoundingBox
    ensures { result ≡ widened b v }
{
    let low = Corner {
        x: smaller(b.low.x, v.x),
        y: smaller(b.low.y, v.y),
        z: smaller(b.low.z, v.z),
    };
    let high = Corner {
        x: larger(b.high.x, v.x),
        y: larger(b.high.y, v.y),
        z: larger(b.high.z, v.z),
    };
    BoundingBox { low, high }
}

// The box of the n vertices at a position, of which there is at least one.
pub fn box_of(s: &[u8], at: usize, n: usize) -> BoundingBox
    requires { (0 < n) × (at + 12 * n ≤ length s.now) × (every finite (numbers 4 (3 * n) (drop at s.now)) ≡ true) }
    ensures { result ≡ bounding_box_of n (numbers 4 (3 * n) (drop at s.now)) }
{
    let first = vertex_at(s, at);
    let mut b = BoundingBox {
        low: first,
        high: first,
    };
    for k in 1..n {
        b = with_vertex(b, vertex_at(s, at + 12 * k));
    }
    b
}

fn half_sum(a: f32, b: f32) -> f32
    ensures { result ≡ middle a b }
{
    a * 0.5 + b * 0.5
}

// The centre of a box.
pub fn centre_of(b: BoundingBox) -> Corner
    ensures { result ≡ centre_of b }
{
    Corner {
        x: half_sum(b.low.x, b.high.x),
        y: half_sum(b.low.y, b.high.y),
        z: half_sum(b.low.z, b.high.z),
    }
}
