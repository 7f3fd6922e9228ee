// The judgement of the slip that is to be written: the first entry that is bad, or that there is too little room, or how
// long the slip is. Nothing is written before all is judged.
#![tactic(auto)]

ghost use Rattle.std.specs.Prelude.{◌≡◌, ◌+◌, ◌*◌, ◌≤◌, length};
ghost use Rattle.shared_words.specs.Lists.{first_fault};
ghost use Rattle.shared_name_tree.specs.Names.{Holds};
ghost use Rattle.slip_rules.specs.Rules.{is_labelled};
ghost use Rattle.slip_rules.specs.Calls.{entries_from, given_bytes};
ghost use Rattle.slip_seen.specs.Seen.{Seen};
ghost use Rattle.slip_write_judge.specs.Rows.{row_no, rows_from, names_from, AllInside, GoodRow};
ghost use Rattle.slip_write_judge.specs.Judged.{judged, JudgesRows};

use shared_labels::fits_label;
use shared_name_tree::add;
use shared_numbers::long_at;
use shared_words::Refusal;
use slip_rules::Numbers;

// The row of number i.
pub fn row(entries: &[u8], i: usize) -> Numbers
    requires { 16 * i + 16 ≤ length entries.now }
    ensures { result ≡ row_no entries.now i }
{
    let at = 16 * i;
    Numbers {
        name: long_at(entries, at),
        len: long_at(entries, at + 4),
        file: long_at(entries, at + 8),
        sums: long_at(entries, at + 12),
    }
}

// Whether the row of number i breaks no rule, and is not one entry too many. Its name is then among those in the tree.
fn is_good(names: &[u8], entries: &[u8], i: usize, nodes: &mut [u32]) -> bool
    requires { (16 * i + 16 ≤ length entries.now) × Seen names.now nodes.old i (names_from names.now i entries.now 0) ×
        (4000 ≤ length nodes.old) }
    ensures { GoodRow names.now entries.now nodes.old i result nodes.new }
{
    if 1000 <= i {
        return false;
    }
    let it = row(entries, i);
    if names.len() < it.name as usize + it.len as usize {
        return false;
    }
    if it.len == 0 {
        return false;
    }
    if 255 < it.len {
        return false;
    }
    if it.sums % 256 == 255 {
        return false;
    }
    if 254 < it.sums / 256 {
        return false;
    }
    add(names, nodes, i, it.name as usize, it.len as usize)
}

// The judgement of the rows alone: the size of the slip, or the refusal of the first bad one.
fn judge_rows(names: &[u8], entries: &[u8], nodes: &mut [u32]) -> Result<usize, Refusal>
    requires { Holds names.now nodes.old 0 × (4000 ≤ length nodes.old) }
    ensures { JudgesRows names.now entries.now result }
{
    let n = entries.len() / 16;
    let mut size = 7usize;
    for i in 0..n {
        if !is_good(names, entries, i, nodes) {
            return Err(Refusal::Slip(i));
        }
        size += 7 + row(entries, i).len as usize;
    }
    Ok(size)
}

// The number of the first of n rows whose name does not fit the label; where all do, n.
fn first_unfit(names: &[u8], entries: &[u8], n: usize) -> usize
    requires { (16 * n ≤ length entries.now) × AllInside names.now entries.now n }
    ensures { result ≡ first_fault is_labelled (entries_from names.now (rows_from n entries.now 0)) }
{
    for i in 0..n {
        let it = row(entries, i);
        let at = it.name as usize;
        if !fits_label(names, at, at + it.len as usize) {
            return i;
        }
    }
    n
}

// The judgement of all, for a buffer of `room` bytes.
pub fn judge(names: &[u8], entries: &[u8], room: usize) -> Result<usize, Refusal>
    ensures { result ≡ judged names.now (given_bytes entries.now) room }
{
    let mut nodes = [0u32; 4000];
    let size = judge_rows(names, entries, &mut nodes)?;
    let n = entries.len() / 16;
    if entries.len() % 16 != 0 {
        return Err(Refusal::Slip(n));
    }
    let unfit = first_unfit(names, entries, n);
    if unfit < n {
        return Err(Refusal::Text(unfit));
    }
    if room < size {
        return Err(Refusal::NoRoom(size));
    }
    Ok(size)
}
