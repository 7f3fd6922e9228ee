// The lists of a mesh: vertices and corners into lent rows, as numbers or as bytes.
#![tactic(auto)]

ghost use Rattle.std.specs.Prelude.{◌≡◌, true, map, ◌+◌, ◌*◌, ◌≤◌, length, take, drop};
ghost use Rattle.shared_words.specs.Bytes.{numbers, packed};
ghost use Rattle.shared_words.specs.Lists.{every};
ghost use Rattle.shared_words.specs.Floats.{finite};
ghost use Rattle.studio_rules.specs.OwnData.{corners};
ghost use Rattle.shared_words.specs.Floats.{float};
ghost use Rattle.shared_words.specs.Effects.{filled};

use shared_copy::put_part;
use shared_numbers::{float_at, long_at, put_long, put_word, word_at};

// The n floats at a position, into the front of a row.
pub fn fill_floats(s: &[u8], at: usize, n: usize, row: &mut [f32])
    requires { (at + 4 * n ≤ length s.now) × (n ≤ length row.old) × (every finite (numbers 4 n (drop at s.now)) ≡ true) }
    ensures { row.new ≡ filled (map float (numbers 4 n (drop at s.now))) row.old }
{
    for i in 0..n {
        row[i] = float_at(s, at + 4 * i);
    }
}

// The corners of the n faces at a position, into the front of a row; the flag word of each is left out.
pub fn fill_corners(s: &[u8], at: usize, n: usize, row: &mut [u16])
    requires { (at + 8 * n ≤ length s.now) × (3 * n ≤ length row.old) }
    ensures { row.new ≡ filled (corners n (drop at s.now)) row.old }
{
    for i in 0..n {
        let face = at + 8 * i;
        row[3 * i] = word_at(s, face) as u16;
        row[3 * i + 1] = word_at(s, face + 2) as u16;
        row[3 * i + 2] = word_at(s, face + 4) as u16;
    }
}

// The bytes of the n floats at a position, into the front of a row.
pub fn fill_float_bytes(s: &[u8], at: usize, n: usize, row: &mut [u8])
    requires { (at + 4 * n ≤ length s.now) × (4 * n ≤ length row.old) }
    ensures { row.new ≡ filled (packed 4 (numbers 4 n (drop at s.now))) row.old }
{
    put_part(s, at, 4 * n, 0, row);
}

// The bytes of the corners of the n faces at a position, into the front of a row: six of the eight of each face. The first
// two corners go as one number, which is quicker than byte by byte.
pub fn fill_corner_bytes(s: &[u8], at: usize, n: usize, row: &mut [u8])
    requires { (at + 8 * n ≤ length s.now) × (6 * n ≤ length row.old) }
    ensures { row.new ≡ filled (packed 2 (corners n (drop at s.now))) row.old }
{
    let mut next = 0usize;
    for i in 0..n {
        let first = at + 8 * i;
        let third = put_long(long_at(s, first), next, row);
        next = put_word(word_at(s, first + 4) as u16, third, row);
    }
}
