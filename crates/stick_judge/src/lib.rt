// The judge of a stick: its slip, and the items that a walk met, each with the evidence for it. It answers the first problem, or
// that there is none.
#![tactic(auto)]

ghost use Rattle.std.specs.Prelude.{◌≡◌, true, ◌+◌, ◌*◌, ◌<◌, ◌≤◌, length, take, drop};
ghost use mathlib.Core.List.{[], tail};
ghost use Rattle.shared_words.specs.Conditions.{accepted, answered};
ghost use Rattle.slip_check.specs.Entries.{entry_in, next_at, entries_in, Whole};
ghost use Rattle.stick_rules.specs.Names.{belongs, slip_name};
ghost use Rattle.stick_names.specs.Digest.{digest_of};
ghost use Rattle.stick_rules.specs.Judge.{slip_entry, manifest, is_no_entry, root_conditions};
ghost use Rattle.stick_rules.specs.Records.{path_of, item_of, item_no, items_in, judge_records, judge_call};
ghost use Rattle.stick_judge.specs.Judging.{
  Is,
  Digested,
  Indexed,
  indexed-prop,
  Finds,
  evidence,
  JudgesItem,
  Flags,
  JudgesItems,
  JudgesEntries,
  JudgesRest,
  behind_root,
};

use shared_big_endian::{byte_at, long_at};
use shared_words::Refusal;
use slip_check::check;
use slip_sums::sums;
use stick_names::{belongs, digest, format_of, is_slip};
use stick_records::{has_figure, is_whole, item_record};
use stick_rules::ItemRecord;

// What is expected at a path: the number of its entry, counted from 1, where 0 is the slip itself; the length and the sums.
#[derive(Clone, Copy)]
struct Sought {
    number: usize,
    file: u64,
    sums: u64,
}

// A slip with so many entries, all whole, and the digest of each one's name.
#[derive(Clone, Copy)]
struct Manifest<'a> {
    slip: &'a [u8],
    entries: usize,
    digests: &'a [u32],
    ghost indexed: { Indexed slip.now entries digests.now } by { indexed-prop slip.now entries digests.now },
}

// ---- what is expected at a path

fn slip_entry(slip: &[u8]) -> Sought
    ensures { Is (slip_entry slip.now) 0 result }
{
    let s = sums(slip);
    Sought {
        number: 0,
        file: s.len,
        sums: s.first + 256 * s.second,
    }
}

fn entry(slip: &[u8], o: usize, number: usize) -> Sought
    requires { next_at slip.now o ≤ length slip.now }
    ensures { Is (entry_in slip.now o) number result }
{
    let len = byte_at(slip, o);
    let file = long_at(slip, o + 1 + len);
    let first = byte_at(slip, o + 5 + len);
    let second = byte_at(slip, o + 5 + len + 1);
    Sought {
        number,
        file: file as u64,
        sums: (first + 256 * second) as u64,
    }
}

// Whether a path is that of the slip's own file.
fn is_own(file: bool, path: &[u8]) -> bool
    ensures { result ≡ belongs file slip_name path.now }
{
    file && is_slip(path)
}

// Whether an entry of this name belongs to a path. Their digests tell most files apart.
fn is_entry_of(file: bool, name: &[u8], known: u32, path: &[u8], sought: u32) -> bool
    requires { (known ≡ digest_of name.now) × (sought ≡ digest_of path.now) }
    ensures { result ≡ belongs file name.now path.now }
{
    if file && known != sought {
        return false;
    }
    belongs(file, name, path)
}

// The digest of each entry's name.
fn fill_digests(slip: &[u8], entries: usize, digests: &mut [u32])
    requires { Whole entries slip.now 7 × (entries ≤ length digests.old) }
    ensures { Digested slip.now entries digests.new × (length digests.new ≡ length digests.old) }
{
    let mut o = 7usize;
    for k in 0..entries {
        let n = byte_at(slip, o);
        digests[k] = digest(&slip[o + 1..o + 1 + n]);
        o += 7 + n;
    }
}

// ---- one item

// The path of an item.
fn path_of(names: &[u8], it: ItemRecord) -> &[u8]
    requires { it.name + it.len ≤ length names.now }
    ensures { result.now ≡ path_of names.now it }
{
    let at = it.name as usize;
    &names[at..at + it.len as usize]
}

// A file, the i-th item, whose entry has this length and these sums.
fn judge_evidence(
    names: &[u8],
    it: ItemRecord,
    i: usize,
    file: u64,
    sums: u64,
) -> Result<(), Refusal>
    requires { it.name + it.len ≤ length names.now }
    ensures { result ≡ answered (evidence i file sums (item_of names.now it)) }
{
    if it.size != file {
        return Err(Refusal::Changed(i));
    }
    if it.checksum / 65536 != it.size {
        return Err(Refusal::Unchecked(i));
    }
    if it.reader != format_of(path_of(names, it)) {
        return Err(Refusal::Unchecked(i));
    }
    if it.checksum % 65536 != sums {
        return Err(Refusal::Changed(i));
    }
    if 4294967296 <= it.answer {
        return Err(Refusal::BadFigure(i));
    }
    Ok(())
}

// The first item is the stick's own folder.
fn judge_root(names: &[u8], items: &[u8]) -> Result<(), Refusal>
    requires { 56 ≤ length items.now }
    ensures { result ≡ answered (root_conditions (items_in names.now items.now)) }
{
    let it = item_record(names, items, 0);
    if it.kind != 2 {
        return Err(Refusal::Unchecked(0));
    }
    if it.len != 0 {
        return Err(Refusal::Unexpected(0));
    }
    if it.size == 0 {
        return Err(Refusal::Unchecked(0));
    }
    Ok(())
}

// ---- the items behind the first

impl Manifest<'_> {
    ghost use Rattle.stick_judge.specs.Expected.{expected};

    // The first entry whose name belongs to the path of a file, or of a folder. `file` is a bool, since `belongs` and the rules take it so.
    fn find(&self, file: bool, path: &[u8]) -> Option<Sought>
        ensures { Finds file (expected self.now) path.now result }
    {
        if is_own(file, path) {
            return Some(slip_entry(self.slip));
        }
        let sought = digest(path);
        let mut o = 7usize;
        for k in 0..self.entries {
            let n = byte_at(self.slip, o);
            let name = &self.slip[o + 1..o + 1 + n];
            if is_entry_of(file, name, self.digests[k], path, sought) {
                return Some(entry(self.slip, o, k + 1));
            }
            o += 7 + n;
        }
        None
    }

    // A file. Its entry is then among what is matched.
    fn judge_file(
        &self,
        names: &[u8],
        it: ItemRecord,
        i: usize,
        matched: &mut [u8],
    ) -> Result<(), Refusal>
        requires { (it.kind ≡ 1) × (it.name + it.len ≤ length names.now) × (64 * self.now.entries + 64 ≤ length matched.old) }
        ensures { JudgesItem (expected self.now) i (item_of names.now it) matched.old result matched.new }
    {
        if it.len == 0 {
            return Err(Refusal::Unexpected(i));
        }
        let Some(sought) = self.find(true, path_of(names, it)) else {
            return Err(Refusal::Unexpected(i));
        };
        let at = 64 * sought.number;
        if matched[at] != 0 {
            return Err(Refusal::Unexpected(i));
        }
        matched[at] = 1;
        judge_evidence(names, it, i, sought.file, sought.sums)
    }

    // A folder whose path is no entry's must lead to one, and be listed. The entry up to that path is then among what is matched.
    fn judge_leading(
        &self,
        names: &[u8],
        it: ItemRecord,
        i: usize,
        matched: &mut [u8],
    ) -> Result<(), Refusal>
        requires { (it.kind ≡ 2) × (it.name + it.len ≤ length names.now) × (1 ≤ it.len) × (it.len < 64) ×
            (is_no_entry (expected self.now) (item_of names.now it) ≡ true) × (64 * self.now.entries + 64 ≤ length matched.old) }
        ensures { JudgesItem (expected self.now) i (item_of names.now it) matched.old result matched.new }
    {
        let Some(sought) = self.find(false, path_of(names, it)) else {
            return Err(Refusal::Unexpected(i));
        };
        let flag = 64 * sought.number + it.len as usize;
        if matched[flag] != 0 {
            return Err(Refusal::Unexpected(i));
        }
        matched[flag] = 1;
        if it.size == 0 {
            return Err(Refusal::Unchecked(i));
        }
        Ok(())
    }

    // What is no file must be a folder, of a path that is no entry's.
    fn judge_folder(
        &self,
        names: &[u8],
        it: ItemRecord,
        i: usize,
        matched: &mut [u8],
    ) -> Result<(), Refusal>
        requires { (it.kind ≡ 1 → ⊥) × (it.kind ≡ 2 → it.name + it.len ≤ length names.now) ×
            (64 * self.now.entries + 64 ≤ length matched.old) }
        ensures { JudgesItem (expected self.now) i (item_of names.now it) matched.old result matched.new }
    {
        if it.kind != 2 {
            return Err(Refusal::Unchecked(i));
        }
        if it.len == 0 {
            return Err(Refusal::Unexpected(i));
        }
        if 64 <= it.len {
            return Err(Refusal::Unexpected(i));
        }
        if self.find(true, path_of(names, it)).is_some() {
            return Err(Refusal::Unexpected(i));
        }
        self.judge_leading(names, it, i, matched)
    }

    // The item of number i.
    fn judge_item(
        &self,
        names: &[u8],
        items: &[u8],
        i: usize,
        matched: &mut [u8],
    ) -> Result<(), Refusal>
        requires { (56 * i + 56 ≤ length items.now) × (64 * self.now.entries + 64 ≤ length matched.old) }
        ensures { JudgesItem (expected self.now) i (item_no names.now items.now i) matched.old result matched.new }
    {
        let it = item_record(names, items, i);
        if it.kind == 1 {
            return self.judge_file(names, it, i, matched);
        }
        self.judge_folder(names, it, i, matched)
    }

    // Each item behind the first in its turn.
    fn judge_items(&self, names: &[u8], items: &[u8], matched: &mut [u8]) -> Result<(), Refusal>
        requires { (64 * self.now.entries + 64 ≤ length matched.old) × Flags matched.old [] × (56 ≤ length items.now) }
        ensures { JudgesItems (expected self.now) (tail (items_in names.now items.now)) matched.old result matched.new }
    {
        let n = items.len() / 56;
        for i in 1..n {
            self.judge_item(names, items, i, matched)?;
        }
        Ok(())
    }
}

// ---- all of them

// Whether the file of each of n entries is met.
fn judge_entries(matched: &[u8], n: usize) -> Result<(), Refusal>
    requires { 64 * n ≤ length matched.now }
    ensures { JudgesEntries n matched.now result }
{
    for k in 0..n {
        if matched[64 * k] == 0 {
            return Err(Refusal::Absent(k));
        }
    }
    Ok(())
}

// What is left when each item is in order.
fn judge_rest(matched: &[u8], n: usize, names: &[u8], items: &[u8]) -> Result<(), Refusal>
    requires { 64 * n ≤ length matched.now }
    ensures { JudgesRest n (items_in names.now items.now) matched.now result }
{
    if !is_whole(names, items) {
        return Err(Refusal::Incomplete);
    }
    judge_entries(matched, n)?;
    if !has_figure(names, items) {
        return Err(Refusal::NoFigure);
    }
    Ok(())
}

// All items, and then the rest. There are 64 flags for each entry: of its file, and of a folder by the length of its path.
fn judge_all(slip: &[u8], entries: usize, names: &[u8], items: &[u8]) -> Result<(), Refusal>
    requires { Whole entries slip.now 7 × (entries ≤ 1000) × (56 ≤ length items.now) }
    ensures { result ≡ answered (behind_root (manifest slip.now (entries_in entries slip.now 7))
        (items_in names.now items.now)) }
{
    let mut digests = [0u32; 1000];
    fill_digests(slip, entries, &mut digests);
    let mut matched = [0u8; 64064];
    let manifest = Manifest {
        slip,
        entries,
        digests: &digests,
    };
    manifest.judge_items(names, items, &mut matched)?;
    judge_rest(&matched, entries + 1, names, items)
}

// A stick whose slip has so many entries.
fn judge_stick(slip: &[u8], entries: usize, names: &[u8], items: &[u8]) -> Result<(), Refusal>
    requires { Whole entries slip.now 7 × (entries ≤ 1000) }
    ensures { result ≡ judge_records slip.now (accepted (entries_in entries slip.now 7)) names.now
        items.now }
{
    if items.len() % 56 != 0 {
        return Err(Refusal::Unchecked(items.len() / 56));
    }
    if items.len() == 0 {
        return Err(Refusal::Incomplete);
    }
    judge_root(names, items)?;
    judge_all(slip, entries, names, items)
}

// The judge of a stick.
pub fn judge(slip: &[u8], names: &[u8], items: &[u8]) -> Result<(), Refusal>
    ensures { result ≡ judge_call slip.now names.now items.now }
{
    let entries = check(slip)?;
    judge_stick(slip, entries, names, items)
}
