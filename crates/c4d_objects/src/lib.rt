// OBJ5: its objects one after another. What a list needs of them is noted, so that it need not go over the sub-chunks again.
#![tactic(auto)]

ghost use Rattle.std.specs.Prelude.{◌≡◌, ◌+◌, ◌≤◌, length};
ghost use Rattle.std.proofs.Math.Option.{none};
ghost use Rattle.shared_words.specs.Refusals.{limit};
ghost use Rattle.shared_numbers.specs.Put.{Put};
ghost use Rattle.c4d_held.specs.Held.{last_of};
ghost use Rattle.c4d_object.specs.Ahead.{ahead};
ghost use Rattle.c4d_objects.specs.Notes.{front, tallied, Notes};

use c4d_blocks::{Block, object_at, object_head};
use c4d_held::{T_OBJECT, judge_outside};
use c4d_object::{note, object};
use shared_words::Refusal;

// How many objects and textures there are.
#[derive(Clone, Copy)]
pub struct Figure {
    pub objects: usize,
    pub textures: usize,
}

// Notes an object in front of its materials, and answers the place behind these. (Its offset, a mark that textures follow and its
// combination are one number: the notes are a row of fixed length, since the library has no heap.)
fn note_object(
    offset: usize,
    number: usize,
    textures: usize,
    row: usize,
    notes: &mut [u32],
) -> usize
    requires { (offset ≤ limit) × (number ≤ 9) × (textures ≤ limit) × (row ≤ limit) }
    ensures is { result ≡ row + length (front offset number textures) + textures }
    ensures noted { row + length (front offset number textures) ≤ length notes.old →
        Put notes.old row (front offset number textures) notes.new (row + length (front offset number textures)) }
{
    if textures == 0 {
        note(32 * offset + number, row, notes);
        return row + 1;
    }
    note(32 * offset + 16 + number, row, notes);
    note(textures, row + 1, notes);
    row + 2 + textures
}

// The OBJ5 at a position, which ends at another, in a file whose materials are below a number.
pub fn objects(
    file: &[u8],
    chunk: usize,
    to: usize,
    below: usize,
    notes: &mut [u32],
) -> Result<Figure, Refusal>
    requires { (chunk + 8 ≤ to) × (to ≤ length file.now) × (to ≤ limit) × (below ≤ 0x8000_0000) }
    ensures is { result ≡ tallied (ahead file.now (last_of below) chunk to (chunk + 8) none (chunk + 8)) }
    ensures noted { Notes file.now (ahead file.now (last_of below) chunk to (chunk + 8) none (chunk + 8)) notes.old
        notes.new }
{
    let mut at = chunk + 8;
    let mut count = 0usize;
    let mut textures = 0usize;
    let mut row = 0usize;
    let mut head = object_head(file, at, to);
    // a `while`: each chunk's size tells where the next begins
    while at < to {
        let Some(Block { id, len }) = object_at(head, at, to) else {
            return Err(Refusal::Overrun(at));
        };
        let next = at + (4 + len);
        if id != T_OBJECT {
            judge_outside(at, id, len)?;
            at = next;
            head = object_head(file, at, to);
            continue;
        }
        let one = object(file, chunk, next, to, below, row, notes)?;
        row = note_object(at, one.number, one.textures, row, notes);
        textures += one.textures;
        at = one.end;
        count += 1;
        head = object_head(file, at, to);
    }
    Ok(Figure {
        objects: count,
        textures,
    })
}
