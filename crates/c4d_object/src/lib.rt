// One object of OBJ5: its sub-chunks from behind its T_OBJECT to its T_END, each judged where it stands. The materials of its textures
// are noted, so that a list need not go over the sub-chunks again.
#![tactic(auto)]

ghost use Rattle.std.specs.Prelude.{[], ◌∷◌, ◌+◌, ◌*◌, ◌<◌, ◌≤◌, length};
ghost use Rattle.shared_numbers.specs.Put.{Put};
ghost use Rattle.c4d_held.specs.Held.{last_of};
ghost use Rattle.c4d_object.specs.One.{OneIs};

use c4d_blocks::{Block, object_at, object_head};
use c4d_held::{T_END, T_OBJECT, T_TEXTURE, begun, combined, judge_texture, with_one};
use shared_words::Refusal;

// A whole object: the position behind it, its combination, how many textures it has.
#[derive(Clone, Copy)]
pub struct One {
    pub end: usize,
    pub number: usize,
    pub textures: usize,
}

// Notes a number, where there is room for it.
pub fn note(number: usize, at: usize, notes: &mut [u32])
    requires { number < 4294967296 }
    ensures { at < length notes.old → Put notes.old at (number ∷ []) notes.new (at + 1) }
{
    if at < notes.len() {
        notes[at] = number as u32;
    }
}

// The object whose T_OBJECT ends at a position, in the OBJ5 `chunk` that ends at `to`, in a file whose materials are below a number. The
// material of its first texture is noted two places behind `row`.
pub fn object(
    file: &[u8],
    chunk: usize,
    from: usize,
    to: usize,
    below: usize,
    row: usize,
    notes: &mut [u32],
) -> Result<One, Refusal>
    requires { (from ≤ to) × (to ≤ length file.now) × (below ≤ 0x8000_0000) × (8 * row + 4 ≤ from) }
    ensures { OneIs file.now (last_of below) chunk from to row notes.old notes.new result }
{
    let mut at = from;
    let mut held = begun();
    let mut textures = 0usize;
    let mut head = object_head(file, at, to);
    // a `while`: each chunk's size tells where the next begins
    while at < to {
        let Some(Block { id, len }) = object_at(head, at, to) else {
            return Err(Refusal::Overrun(at));
        };
        // made at once, since position and size would take two registers
        let next = at + (4 + len);
        if id == T_END {
            let Some(number) = combined(held) else {
                return Err(Refusal::Combination(at));
            };
            return Ok(One {
                end: next,
                number,
                textures,
            });
        }
        if id == T_OBJECT {
            return Err(Refusal::Order(at));
        }
        held = with_one(held, id);
        if id != T_TEXTURE {
            at = next;
            head = object_head(file, at, to);
            continue;
        }
        let material = judge_texture(file, at, len, below)?;
        note(material, row + 2 + textures, notes);
        textures += 1;
        // a texture has 64 bytes: the next step need not wait for its size
        at += 68;
        head = object_head(file, at, to);
    }
    Err(Refusal::Order(chunk))
}
