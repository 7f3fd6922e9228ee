// The mapping of a mesh into a lent row, as numbers or as bytes: the pairs that the file has, and zeros for the missing ones.
#![tactic(auto)]

ghost use Rattle.std.specs.Prelude.{◌≡◌, true, ◌++◌, map, ◌+◌, ◌-◌, ◌*◌, ◌≤◌, length, take, drop, replicate};
ghost use Rattle.shared_words.specs.Bytes.{numbers, packed};
ghost use Rattle.shared_words.specs.Lists.{every};
ghost use Rattle.shared_words.specs.Floats.{finite, float};
ghost use Rattle.shared_words.specs.Effects.{filled};
ghost use Rattle.studio_rules.specs.Gives.{filled_up};

use studio_mesh_rows::{fill_float_bytes, fill_floats};

// A value into a row, from a position to another.
fn fill<T: Copy>(value: T, from: usize, to: usize, row: &mut [T])
    requires { (from ≤ to) × (to ≤ length row.old) }
    ensures { row.new ≡ filled (take from row.old ++ replicate (to - from) value) row.old }
{
    for i in from..to {
        row[i] = value;
    }
}

// The m pairs at a position, and zeros up to n pairs, into the front of a row.
pub fn fill_pairs(s: &[u8], at: usize, m: usize, n: usize, row: &mut [f32])
    requires { (at + 8 * m ≤ length s.now) × (m ≤ n) × (2 * n ≤ length row.old) × (every finite (numbers 4 (2 * m) (drop at s.now)) ≡ true) }
    ensures { row.new ≡ filled (map float (filled_up (2 * n) (numbers 4 (2 * m) (drop at s.now)))) row.old }
{
    fill_floats(s, at, 2 * m, row);
    fill(0.0, 2 * m, 2 * n, row);
}

// The same as bytes, four a number.
pub fn fill_pair_bytes(s: &[u8], at: usize, m: usize, n: usize, row: &mut [u8])
    requires { (at + 8 * m ≤ length s.now) × (m ≤ n) × (8 * n ≤ length row.old) }
    ensures { row.new ≡ filled (packed 4 (filled_up (2 * n) (numbers 4 (2 * m) (drop at s.now)))) row.old }
{
    fill_float_bytes(s, at, 2 * m, row);
    fill(0, 8 * m, 8 * n, row);
}
