// Who hangs on whom: the father and the depth of each part of a moving figure, into a lent row of numbers or of bytes. The file
// is checked first, and nothing is written before room for all parts is there.
#![tactic(auto)]

ghost use Rattle.std.specs.Prelude.{◌≡◌};
ghost use Rattle.studio_rules.specs.Encodings.{part_row, part_bytes};
ghost use Rattle.studio_rules.specs.Calls.{parts_call};
ghost use Rattle.studio_parts.specs.Asked.{AskedIs};

use shared_words::Refusal;
use studio_parts_fill::{fill_bytes, fill_numbers};
use studio_parts_find::{Between, count_parts, find_parts};

// Where the parts stand and how many there are.
#[derive(Clone, Copy)]
struct Counted {
    run: Between,
    count: usize,
}

// The parts of a file that is checked first, where there is room for so many; or the refusal of the file, or of the room.
fn ask(file: &[u8], room: usize) -> Result<Counted, Refusal>
    ensures { AskedIs file.now room result }
{
    studio_check::check(file)?;
    let run = find_parts(file);
    let count = count_parts(file, run);
    if room < count {
        return Err(Refusal::NoRoom(count));
    }
    Ok(Counted { run, count })
}

// The parts of a figure, in file order, two numbers each: the father's number, or 65535 for none, and the depth. Answers how
// many there are, or the refusal; a refusal leaves the row as it was.
pub fn parts(file: &[u8], row: &mut [u32]) -> Result<usize, Refusal>
    ensures answer { result ≡ (parts_call part_row file.now row.old).answer }
    ensures filled { row.new ≡ (parts_call part_row file.now row.old).rows }
{
    let parts = ask(file, row.len() / 2)?;
    fill_numbers(file, parts.run, row);
    Ok(parts.count)
}

// The same as bytes: two numbers a part, four bytes a number.
pub fn parts_bytes(file: &[u8], row: &mut [u8]) -> Result<usize, Refusal>
    ensures answer { result ≡ (parts_call part_bytes file.now row.old).answer }
    ensures filled { row.new ≡ (parts_call part_bytes file.now row.old).rows }
{
    let parts = ask(file, row.len() / 8)?;
    fill_bytes(file, parts.run, row);
    Ok(parts.count)
}
