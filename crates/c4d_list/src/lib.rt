// The objects of a file and the materials of their textures, into two lent rows of bytes: a check of the whole file, which notes them, and
// then the rows filled from these notes.
#![tactic(auto)]

ghost use Rattle.std.specs.Prelude.{◌≡◌, [], ◌∷◌, ◌+◌, ◌-◌, ◌*◌, ◌<◌, ◌≤◌, length};
ghost use Rattle.std.proofs.Math.Seq.{slice};
ghost use Rattle.shared_words.specs.Bytes.{packed};
ghost use Rattle.shared_words.specs.Encodings.{number_bytes};
ghost use Rattle.shared_words.specs.Refusals.{limit};
ghost use Rattle.shared_numbers.specs.Put.{Put};
ghost use Rattle.c4d_rules.specs.Calls.{object_bytes, two_rows, c4d_list_call};
ghost use Rattle.c4d_list.specs.Filled.{Fillable, FilledIs};

use c4d_check::read;
use shared_numbers::{put_long, put_word};
use shared_words::Refusal;

// Puts the three numbers of an object, and answers the position behind them.
fn put_object(offset: usize, combined: usize, textures: usize, at: usize, row: &mut [u8]) -> usize
    requires { (at + 12 ≤ length row.old) × (offset < 4294967296) × (combined < 4294967296) × (textures < 4294967296) }
    ensures { Put row.old at (packed 4 (offset ∷ combined ∷ textures ∷ [])) row.new result }
{
    let placed = put_long(offset as u32, at, row);
    let named = put_long(combined as u32, placed, row);
    put_long(textures as u32, named, row)
}

// Puts the numbers that are noted from a place to another, and answers the position behind them.
fn put_materials(notes: &[u32], from: usize, to: usize, at: usize, row: &mut [u8]) -> usize
    requires { (from ≤ to) × (to ≤ length notes.now) × (at + 4 * (to - from) ≤ length row.old) }
    ensures { Put row.old at (packed 4 (slice from to notes.now)) row.new result }
{
    let mut behind = at;
    for number in &notes[from..to] {
        // in two halves: a loop over whole numbers would be compiled to memcpy of the C library, which the library does without
        let high = put_word((*number % 65536) as u16, behind, row);
        behind = put_word((*number / 65536) as u16, high, row);
    }
    behind
}

// Fills the rows from the notes of so many objects.
fn fill(notes: &[u32], count: usize, objects: &mut [u8], materials: &mut [u8])
    requires { Fillable notes.now count (length objects.old) (length materials.old) }
    ensures { FilledIs notes.now count objects.old materials.old objects.new materials.new }
{
    let mut from = 0usize;
    let mut row = 0usize;
    let mut behind = 0usize;
    for _ in 0..count {
        let noted = notes[from] as usize;
        if noted / 16 % 2 == 0 {
            row = put_object(noted / 32, noted % 16, 0, row, objects);
            from += 1;
            continue;
        }
        let textures = notes[from + 1] as usize;
        let next = from + 2 + textures;
        row = put_object(noted / 32, noted % 16, textures, row, objects);
        behind = put_materials(notes, from + 2, next, behind, materials);
        from = next;
    }
}

// The list, with a row for the notes.
fn list_with(
    file: &[u8],
    notes: &mut [u32],
    objects: &mut [u8],
    materials: &mut [u8],
) -> Result<usize, Refusal>
    requires { length file.now ≤ limit → length file.now ≤ 8 * length notes.old }
    ensures answer { result ≡ (c4d_list_call object_bytes (number_bytes 4) file.now objects.old materials.old).answer }
    ensures rows { two_rows objects.new materials.new ≡
        (c4d_list_call object_bytes (number_bytes 4) file.now objects.old materials.old).rows }
{
    let figure = read(file, notes)?;
    if objects.len() / 12 < figure.objects {
        return Err(Refusal::NoRoom(figure.objects));
    }
    if materials.len() / 4 < figure.textures {
        return Err(Refusal::NoRoom(figure.textures));
    }
    fill(notes, figure.objects, objects, materials);
    Ok(figure.objects)
}

// The objects of a file, three numbers each, and the materials of all of them. Answers how many objects there are, or the
// refusal; a refusal leaves both rows as they were. A short file needs few notes, which are quicker made.
// The notes have a row of fixed length, since the library has no heap.
pub fn list(file: &[u8], objects: &mut [u8], materials: &mut [u8]) -> Result<usize, Refusal>
    ensures answer { result ≡ (c4d_list_call object_bytes (number_bytes 4) file.now objects.old materials.old).answer }
    ensures rows { two_rows objects.new materials.new ≡
        (c4d_list_call object_bytes (number_bytes 4) file.now objects.old materials.old).rows }
{
    if file.len() <= 16384 {
        let mut few = [0u32; 2048];
        return list_with(file, &mut few, objects, materials);
    }
    let mut notes = [0u32; 131072];
    list_with(file, &mut notes, objects, materials)
}
