// The box of a mesh and its centre in a lent row of bytes: nine floats, or nine zeros where there are no vertices.
#![tactic(auto)]

ghost use Rattle.std.specs.Prelude.{◌≡◌, true, ◌+◌, ◌*◌, ◌≤◌, length, drop};
ghost use Rattle.shared_words.specs.Bytes.{packed, numbers};
ghost use Rattle.shared_words.specs.Lists.{every};
ghost use Rattle.shared_words.specs.Floats.{finite};
ghost use Rattle.shared_numbers.specs.Put.{Put};
ghost use Rattle.studio_rules.specs.Calls.{box_answer};
ghost use Rattle.studio_rules.specs.Within.{Numbers, BoxNumbers};
ghost use Rattle.studio_rules.specs.Gives.{Mesh};
ghost use Rattle.studio_meshes_rules.specs.Boxes.{three, nine, mesh_box};

use shared_numbers::put_long;
use studio_mesh_box::{box_of, centre_of};
use studio_rules::{BoundingBox, Corner};

// The three coordinates of a corner at a position; answers the position behind them.
fn put_corner(c: Corner, at: usize, row: &mut [u8]) -> usize
    requires { Numbers c × (at + 12 ≤ length row.old) }
    ensures { Put row.old at (packed 4 (three c)) row.new result }
{
    let y = put_long(f32::to_bits(c.x), at, row);
    let z = put_long(f32::to_bits(c.y), y, row);
    put_long(f32::to_bits(c.z), z, row)
}

// A box and its centre at a position; answers the position behind them.
fn put_around(b: BoundingBox, centre: Corner, at: usize, row: &mut [u8]) -> usize
    requires { BoxNumbers (box_answer b centre) × (at + 36 ≤ length row.old) }
    ensures { Put row.old at (packed 4 (nine b centre)) row.new result }
{
    let high = put_corner(b.low, at, row);
    let middle = put_corner(b.high, high, row);
    put_corner(centre, middle, row)
}

// The box of the n vertices at a position of the file, and its centre, at a position of the row; answers the position behind them.
pub fn put_box(file: &[u8], from: usize, n: usize, at: usize, row: &mut [u8]) -> usize
    requires { (from + 12 * n ≤ length file.now) × (every finite (numbers 4 (3 * n) (drop from file.now)) ≡ true) × (at + 36 ≤ length row.old) }
    ensures { (m : Mesh) → n ≡ m.vertex_count → m.vertices ≡ numbers 4 (3 * n) (drop from file.now) →
        Put row.old at (packed 4 (mesh_box m)) row.new result }
{
    if n == 0 {
        let zero = Corner {
            x: 0.0,
            y: 0.0,
            z: 0.0,
        };
        let none = BoundingBox {
            low: zero,
            high: zero,
        };
        return put_around(none, zero, at, row);
    }
    let b = box_of(file, from, n);
    put_around(b, centre_of(b), at, row)
}
