// The strict reading of a Cinema 4D file: its length, its header, its chunks.
#![tactic(auto)]

ghost use Rattle.std.specs.Prelude.{◌≡◌, true, ◌-◌, ◌≤◌, length, take};
ghost use Rattle.shared_words.specs.Lists.{same};
ghost use Rattle.shared_words.specs.Refusals.{limit};
ghost use Rattle.c4d_rules.specs.Layout.{file_header};
ghost use Rattle.c4d_rules.specs.Calls.{c4d_check_call};
ghost use Rattle.c4d_check.specs.Reads.{Reads};

use c4d_chunks::chunks;
use c4d_objects::Figure;
use shared_big_endian::long_at;
use shared_words::Refusal;

const LIMIT: usize = 1_048_576;

const FORM: usize = 0x464F_524D;

const MC4D: usize = 0x4D43_3444;

// Whether the first 12 bytes are as they should be.
fn is_form(file: &[u8]) -> bool
    requires { length file.now ≤ limit }
    ensures is { result ≡ same (take 12 file.now) (file_header (length file.now - 8)) }
    ensures long { result ≡ true → 12 ≤ length file.now }
{
    12 <= file.len()
        && long_at(file, 0) == FORM
        && long_at(file, 4) == file.len() - 8
        && long_at(file, 8) == MC4D
}

// The first fault, or how many objects and textures there are. The objects of an accepted file are noted, where there is room.
pub fn read(file: &[u8], notes: &mut [u32]) -> Result<Figure, Refusal>
    ensures { Reads file.now notes.old notes.new result }
{
    if LIMIT < file.len() {
        return Err(Refusal::TooLong);
    }
    if !is_form(file) {
        return Err(Refusal::Form);
    }
    chunks(file, notes)
}

// The first fault, or how many objects there are.
pub fn check(file: &[u8]) -> Result<usize, Refusal>
    ensures { result ≡ c4d_check_call file.now }
{
    let mut no_notes = [0u32; 0];
    let figure = read(file, &mut no_notes)?;
    Ok(figure.objects)
}
