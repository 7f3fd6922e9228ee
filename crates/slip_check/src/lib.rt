// The check pass over a slip: whether it meets the rules. The names that were met are kept in a tree.
#![tactic(auto)]

ghost use Rattle.std.specs.Prelude.{◌≡◌, true, ◌+◌, ◌*◌, ◌<◌, ◌≤◌, length};
ghost use Rattle.shared_name_tree.specs.Names.{Holds};
ghost use Rattle.slip_seen.specs.Seen.{Seen};
ghost use Rattle.slip_check.specs.Entries.{names_in, Reached, GoodEntry, Walks, head_good, Whole, Labels, Checks};

use shared_big_endian::{byte_at, long_at, word_at};
use shared_labels::fits_label;
use shared_name_tree::add;
use shared_words::Refusal;

// Whether the entry behind the first n is whole and meets the rules of refusal 18. Its name is then among those that were met.
fn is_good(s: &[u8], n: usize, at: usize, nodes: &mut [u32]) -> bool
    requires { Reached s.now n at × Seen s.now nodes.old n (names_in n s.now 7) × (4 * n + 4 ≤ length nodes.old) × (n < 1000) }
    ensures { GoodEntry s.now nodes.old n at result nodes.new }
{
    let left = s.len() - at;
    if left < 7 {
        return false;
    }
    let len = byte_at(s, at);
    if left < 7 + len {
        return false;
    }
    if len == 0 {
        return false;
    }
    let sums = at + 5 + len;
    if byte_at(s, sums) == 255 {
        return false;
    }
    if byte_at(s, sums + 1) == 255 {
        return false;
    }
    add(s, nodes, n, at + 1, len)
}

// The walk over the entries.
fn walk_entries(s: &[u8], count: usize, nodes: &mut [u32]) -> Result<(), Refusal>
    requires { (7 ≤ length s.now) × (count ≤ 1000) × Holds s.now nodes.old 0 × (4 * count ≤ length nodes.old) }
    ensures { Walks s.now count result }
{
    let mut at = 7usize;
    for n in 0..count {
        if !is_good(s, n, at, nodes) {
            return Err(Refusal::Slip(at));
        }
        at += 7 + byte_at(s, at);
    }
    if at < s.len() {
        return Err(Refusal::Slip(at));
    }
    Ok(())
}

// The names of the entries, which are whole: where the first stands that does not fit the label, or how many there are.
fn judge_labels(s: &[u8], count: usize) -> Result<usize, Refusal>
    requires { Whole count s.now 7 }
    ensures { Labels s.now count result }
{
    let mut o = 7usize;
    for _ in 0..count {
        let len = byte_at(s, o);
        if !fits_label(s, o + 1, o + 1 + len) {
            return Err(Refusal::Text(o));
        }
        o += 7 + len;
    }
    Ok(count)
}

// ---- the slip

// Whether the first seven bytes are as they should be.
fn is_headed(s: &[u8]) -> bool
    ensures { (result ≡ head_good s.now) × (result ≡ true → 7 ≤ length s.now) }
{
    if s.len() < 7 {
        return false;
    }
    if byte_at(s, 0) != 1 {
        return false;
    }
    if 5 + long_at(s, 1) != s.len() {
        return false;
    }
    word_at(s, 5) <= 1000
}

// The check of a slip.
pub fn check(s: &[u8]) -> Result<usize, Refusal>
    ensures { Checks s.now result }
{
    if !is_headed(s) {
        return Err(Refusal::Slip(0));
    }
    let count = word_at(s, 5);
    let mut nodes = [0u32; 4000];
    walk_entries(s, count, &mut nodes)?;
    judge_labels(s, count)
}
