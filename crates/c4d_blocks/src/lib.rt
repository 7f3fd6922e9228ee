// Chunks and sub-chunks in a slice: what the header at a position tells. The three kinds of header differ in how many bytes they
// have for the identifier and for the size.
#![tactic(auto)]

ghost use Rattle.std.specs.Prelude.{List, ℕ, ◌+◌, ◌<◌, ◌≤◌, length};
ghost use Rattle.c4d_rules.specs.Blocks.{chunk_header, material_header, object_header};
ghost use Rattle.c4d_blocks.specs.Headers.{Sees, Headed};

use shared_big_endian::long_at;

// A block that is whole: its identifier, and its size behind the header.
#[derive(Clone, Copy)]
pub struct Block {
    pub id: usize,
    pub len: usize,
}

// A chunk between a position and an end, if it is whole: four letters and a size.
pub fn chunk_at(file: &[u8], at: usize, to: usize) -> Option<Block>
    requires { (at ≤ to) × (to ≤ length file.now) }
    ensures { Sees chunk_header file.now at to result }
{
    let left = to - at;
    if left < 8 {
        return None;
    }
    let len = long_at(file, at + 4);
    if left - 8 < len {
        return None;
    }
    Some(Block {
        id: long_at(file, at),
        len,
    })
}

// A sub-chunk of MAT4: a word and a size of two bytes, read as one number.
pub fn material_at(file: &[u8], at: usize, to: usize) -> Option<Block>
    requires { (at ≤ to) × (to ≤ length file.now) }
    ensures { Sees material_header file.now at to result }
{
    let left = to - at;
    if left < 4 {
        return None;
    }
    let head = long_at(file, at);
    let len = head % 65536;
    if left - 4 < len {
        return None;
    }
    Some(Block {
        id: head / 65536,
        len,
    })
}

// ---- a sub-chunk of OBJ5: a byte and a size of three. Its header is read as one number, a step before it is taken apart: so the compiler reads it
// at once, and not byte by byte, which takes twice as long.

const NO_HEADER: usize = 0x1_0000_0000;

// The header at a position.
pub fn object_head(file: &[u8], at: usize, to: usize) -> usize
    requires { (at ≤ to) × (to ≤ length file.now) }
    ensures { Headed file.now at to result }
{
    if to - at < 4 {
        return NO_HEADER;
    }
    long_at(file, at)
}

// What it tells.
pub fn object_at(head: usize, at: usize, to: usize) -> Option<Block>
    requires { (at ≤ to) × (head < 0x1_0000_0000 → at + 4 ≤ to) }
    ensures { (s : List ℕ) → to ≤ length s → Headed s at to head → Sees object_header s at to result }
{
    if NO_HEADER <= head {
        return None;
    }
    let len = head % 16777216;
    if to - at - 4 < len {
        return None;
    }
    Some(Block {
        id: head / 16777216,
        len,
    })
}
