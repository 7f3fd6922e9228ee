// The check of a whole file: the conditions of the file itself, then the walk through the children of its one chunk 4D4D.
#![tactic(auto)]

ghost use Rattle.std.specs.Prelude.{◌≡◌, ◌+◌, ◌*◌, ◌≤◌, length};
ghost use Rattle.shared_words.specs.Conditions.{broken};
ghost use Rattle.studio_rules.specs.Walk.{file_conditions, length_field};
ghost use Rattle.studio_rules.specs.Calls.{check_of, check_call};
ghost use Rattle.studio_marks.specs.Marks.{ShutIs};
ghost use Rattle.studio_check.specs.Figure.{CountsAre, figure_answer};

use shared_numbers::{long_at, word_at};
use shared_words::Refusal;
use studio_rules::Counts;

// The file's own conditions: its length, and the header of its one chunk 4D4D.
pub fn judge_file(file: &[u8]) -> Result<(), Refusal>
    ensures { ShutIs (broken (file_conditions file.now (length_field file.now))) result }
{
    let size = file.len();
    if 1048576 < size {
        return Err(Refusal::TooLong);
    }
    if size < 6 {
        return Err(Refusal::NotAFigure);
    }
    if word_at(file, 0) != 0x4D4D {
        return Err(Refusal::NotAFigure);
    }
    let len = long_at(file, 2) as usize;
    if len < 6 {
        return Err(Refusal::Short(0));
    }
    if size < len {
        return Err(Refusal::Overrun(0));
    }
    if len < size {
        return Err(Refusal::Trailing(len));
    }
    Ok(())
}

// The counts of a file of so many bytes. Each byte is in a header, in own data or skipped.
fn counts(records: usize, skipped: usize, size: usize) -> Counts
    requires { (6 * records + skipped ≤ size) × (size ≤ 1048576) }
    ensures { CountsAre records skipped size result }
{
    let headers = 6 * records;
    Counts {
        records,
        headers,
        own: size - headers - skipped,
        skipped,
    }
}

// The children of 4D4D, and 4D4D at its end.
fn check_figure(file: &[u8]) -> Result<Counts, Refusal>
    requires { (6 ≤ length file.now) × (length file.now ≤ 1048576) }
    ensures { result ≡ check_of (figure_answer file.now) }
{
    let size = file.len();
    let version = studio_version::version(file);
    let as_many = 3 <= version;
    let slots = studio_lookup::slots();
    let mut marks = [0u32; 6];
    let kids = studio_walk::run(
        file,
        &slots,
        studio_lookup::FIGURE,
        0,
        as_many,
        6,
        size,
        &mut marks,
    )?;
    studio_marks::at_end(file, 0x4D4D, 0, as_many, &marks)?;
    Ok(counts(kids.records + 1, kids.skipped, size))
}

// Whether a file is a figure: the counts of its records and bytes, or the first fault in file order.
pub fn check(file: &[u8]) -> Result<Counts, Refusal>
    ensures { result ≡ check_call file.now }
{
    judge_file(file)?;
    check_figure(file)
}
