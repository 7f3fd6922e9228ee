// The parts of an accepted file into a lent row, of numbers or of bytes: two numbers a part, its father and its depth. A father
// stands earlier, so its depth is read back from the row itself.
#![tactic(auto)]

ghost use Rattle.std.specs.Prelude.{◌≡◌, [], ◌∷◌, ◌+◌, ◌/◌, ◌≤◌, length};
ghost use Rattle.shared_words.specs.Bytes.{packed};
ghost use Rattle.shared_words.specs.Effects.{filled};
ghost use Rattle.shared_numbers.specs.Put.{Put};
ghost use Rattle.studio_rules.specs.Layout.{Run};
ghost use Rattle.studio_rules.specs.Gives.{parts};
ghost use Rattle.studio_rules.specs.Encodings.{part_row, part_bytes};
ghost use Rattle.studio_parts_fill.specs.Depths.{InRow, InBytes, depth_in, depth_in_bytes, Fit, SomeFit};

use shared_numbers::{long_at, put_long};
use studio_child::next_child;
use studio_parts_find::{Between, father_at, next_part};

// The depth of a part by its father's, which stands in the row: a root has depth 0.
fn depth_in(row: &[u32], father: u32) -> u32
    requires { InRow row.now father }
    ensures { result ≡ depth_in row.now father }
{
    if father == 65535 {
        return 0;
    }
    row[2 * (father as usize) + 1] + 1
}

// The same in a row of bytes.
fn depth_in_bytes(row: &[u8], father: u32) -> u32
    requires { InBytes row.now father }
    ensures { result ≡ depth_in_bytes row.now father }
{
    if father == 65535 {
        return 0;
    }
    long_at(row, 8 * (father as usize) + 4) + 1
}

// Puts the two numbers of a part at a position, and answers the position behind them.
fn put_numbers(father: u32, at: usize, row: &mut [u32]) -> usize
    requires { InRow row.old father × (at + 2 ≤ length row.old) }
    ensures { Put row.old at (father ∷ depth_in row.old father ∷ []) row.new result }
{
    let depth = depth_in(row, father);
    row[at] = father;
    row[at + 1] = depth;
    at + 2
}

// The same as bytes, four to a number.
fn put_bytes(father: u32, at: usize, row: &mut [u8]) -> usize
    requires { InBytes row.old father × (at + 8 ≤ length row.old) }
    ensures { Put row.old at (packed 4 (father ∷ depth_in_bytes row.old father ∷ [])) row.new result }
{
    let depth = depth_in_bytes(row, father);
    let behind = put_long(father, at, row);
    put_long(depth, behind, row)
}

// The parts of the B000 whose children stand in a run, as numbers at the front of a row. (One function over both rows would need a
// trait of how a number is put and read back, with the laws of `Way`: longer than the loop that it saves.)
pub fn fill_numbers(file: &[u8], run: Between, row: &mut [u32])
    requires { SomeFit file.now run.from run.stop (length row.old / 2) }
    ensures { (kids : Run) → Fit file.now kids run.from run.stop (length row.old / 2) →
        row.new ≡ filled (part_row.encode (parts kids)) row.old }
{
    let mut next = 0usize;
    let mut at = next_child(file, 0xB002, run.from, run.stop);
    // a `while`: each part tells where the next is looked for
    while at < run.stop {
        next = put_numbers(father_at(file, at), next, row);
        at = next_part(file, at, run.stop);
    }
}

// The same as bytes.
pub fn fill_bytes(file: &[u8], run: Between, row: &mut [u8])
    requires { SomeFit file.now run.from run.stop (length row.old / 8) }
    ensures { (kids : Run) → Fit file.now kids run.from run.stop (length row.old / 8) →
        row.new ≡ filled (part_bytes.encode (parts kids)) row.old }
{
    let mut next = 0usize;
    let mut at = next_child(file, 0xB002, run.from, run.stop);
    // a `while`: each part tells where the next is looked for
    while at < run.stop {
        next = put_bytes(father_at(file, at), next, row);
        at = next_part(file, at, run.stop);
    }
}
