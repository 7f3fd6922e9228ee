// The records of items in a lent row of bytes: one of them, whether the walk that met them was whole, and whether a figure is
// among them.
#![tactic(auto)]

ghost use Rattle.std.specs.Prelude.{◌≡◌, not, ◌&&◌, cond, ◌+◌, ◌-◌, ◌*◌, ◌≤◌, eqb, leb, length};
ghost use Rattle.shared_words.specs.Lists.{any};
ghost use Rattle.stick_rules.specs.Items.{is_figure};
ghost use Rattle.stick_rules.specs.Judge.{is_whole};
ghost use Rattle.stick_rules.specs.Records.{eight_at, record_no, items_in};

use shared_numbers::long_at;
use stick_rules::ItemRecord;

// The number of eight bytes at an offset.
pub fn eight_at(s: &[u8], at: usize) -> u64
    requires { at + 8 ≤ length s.now }
    ensures { result ≡ eight_at s.now at }
{
    let low = long_at(s, at);
    let high = long_at(s, at + 4);
    low as u64 + 4294967296 * (high as u64)
}

// Whether a path stands among the names whole.
fn is_within(names: &[u8], name: u64, len: u64) -> bool
    ensures { result ≡ leb (name + len) (length names.now) }
{
    let room = names.len() as u64;
    if room < len {
        return false;
    }
    name <= room - len
}

// A kind as it is seen.
fn kind_seen(names: &[u8], name: u64, len: u64, kind: u64) -> u64
    ensures { result ≡ cond (leb (name + len) (length names.now)) kind 0 }
{
    if is_within(names, name, len) {
        return kind;
    }
    0
}

// The record of number i, as it is seen.
pub fn item_record(names: &[u8], items: &[u8], i: usize) -> ItemRecord
    requires { 56 * i + 56 ≤ length items.now }
    ensures { result ≡ record_no names.now items.now i }
{
    let at = 56 * i;
    let name = eight_at(items, at);
    let len = eight_at(items, at + 8);
    let kind = kind_seen(names, name, len, eight_at(items, at + 16));
    let size = eight_at(items, at + 24);
    let checksum = eight_at(items, at + 32);
    let reader = eight_at(items, at + 40);
    let answer = eight_at(items, at + 48);
    ItemRecord {
        name,
        len,
        kind,
        size,
        checksum,
        reader,
        answer,
    }
}

// How many names were listed in what has this kind and size.
fn listed(kind: u64, size: u64) -> u64
    ensures { result ≡ cond (eqb kind 2) (size - 1) 0 }
{
    if kind != 2 {
        return 0;
    }
    if size == 0 {
        return 0;
    }
    size - 1
}

// Whether the walk met each name that was listed, and the folder itself.
pub fn is_whole(names: &[u8], items: &[u8]) -> bool
    ensures { result ≡ is_whole (items_in names.now items.now) }
{
    let n = items.len() / 56;
    if n == 0 {
        return false;
    }
    let mut left = (n - 1) as u64;
    for i in 0..n {
        let it = item_record(names, items, i);
        let more = listed(it.kind, it.size);
        if left < more {
            return false;
        }
        left -= more;
    }
    left == 0
}

// Whether what has this kind, and was given to this reader, is a figure.
fn is_figure(kind: u64, reader: u64) -> bool
    ensures { result ≡ (eqb kind 1 && not (eqb reader 0)) }
{
    if kind != 1 {
        return false;
    }
    reader != 0
}

// Whether some figure was given to a reader.
pub fn has_figure(names: &[u8], items: &[u8]) -> bool
    ensures { result ≡ any is_figure (items_in names.now items.now) }
{
    let n = items.len() / 56;
    for i in 0..n {
        let it = item_record(names, items, i);
        if is_figure(it.kind, it.reader) {
            return true;
        }
    }
    false
}
