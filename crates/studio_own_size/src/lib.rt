// How many bytes the own data of a chunk takes, by the shape that its row gives.
#![tactic(auto)]

ghost use Rattle.std.specs.Prelude.{◌≡◌, List, [], ℕ, ◌≤◌, ◌<◌, length};
ghost use Rattle.std.proofs.Math.Seq.{slice};
ghost use Rattle.studio_rules.specs.Table.{name, counted, named_words, named};
ghost use Rattle.studio_row.specs.Packed.{shape_in};
ghost use Rattle.studio_names.specs.Names.{fit_size};
ghost use Rattle.studio_own_size.specs.Own.{Fitted, OwnIs, FitIs, CountIs};

use shared_numbers::word_at;
use studio_names::{fit_size, fit_size_16};

// Why own data has no size: no zero ends its name; its name does not fit the label; or it is longer than the body.
#[derive(Clone, Copy)]
pub enum Flaw {
    NoName,
    Unfit,
    TooLong,
}

// So many bytes, where there is room for them.
pub fn fitting(size: usize, room: usize) -> Result<usize, Flaw>
    ensures { Fitted size room result }
{
    if size <= room {
        Ok(size)
    } else {
        Err(Flaw::TooLong)
    }
}

// A count word, and so many bytes for each.
pub fn counted_size(file: &[u8], each: usize, at: usize, stop: usize) -> Result<usize, Flaw>
    requires { (at ≤ stop) × (stop ≤ length file.now) × (each < 256) }
    ensures { OwnIs (counted each) [] (slice at stop file.now) result }
{
    let room = stop - at;
    if room < 2 {
        return Err(Flaw::TooLong);
    }
    fitting(2 + each * (word_at(file, at) as usize), room)
}

// A name, whatever its text: of a file that is known to be good.
pub fn name_size(file: &[u8], at: usize, stop: usize) -> Result<usize, Flaw>
    requires { (at ≤ stop) × (stop ≤ length file.now) }
    ensures { OwnIs name [] (slice at stop file.now) result }
{
    let size = studio_names::name_size(file, at, stop);
    if size <= stop - at {
        Ok(size)
    } else {
        Err(Flaw::NoName)
    }
}

// A name that must fit the label, which has so many bytes. Only where there is none is a zero looked for in the whole body.
fn label(file: &[u8], size: usize, at: usize, stop: usize) -> Result<usize, Flaw>
    requires { (at ≤ stop) × (stop ≤ length file.now) × (size ≡ fit_size (slice at stop file.now)) }
    ensures { FitIs name [] (slice at stop file.now) result }
{
    if size != 0 {
        return Ok(size);
    }
    if studio_names::name_size(&file[0..], at, stop) <= stop - at {
        Err(Flaw::Unfit)
    } else {
        Err(Flaw::NoName)
    }
}

// A name that must fit the label and mostly has up to eight bytes: of an object, a material, a map.
fn short_label(file: &[u8], at: usize, stop: usize) -> Result<usize, Flaw>
    requires { (at ≤ stop) × (stop ≤ length file.now) }
    ensures { FitIs name [] (slice at stop file.now) result }
{
    label(file, fit_size(file, at, stop), at, stop)
}

// One with more behind it: mostly it has up to sixteen.
fn long_label(file: &[u8], at: usize, stop: usize) -> Result<usize, Flaw>
    requires { (at ≤ stop) × (stop ≤ length file.now) }
    ensures { FitIs name [] (slice at stop file.now) result }
{
    label(file, fit_size_16(file, at, stop), at, stop)
}

// A name that must fit the label, a count word and words.
fn named_words_size(file: &[u8], at: usize, stop: usize) -> Result<usize, Flaw>
    requires { (at ≤ stop) × (stop ≤ length file.now) }
    ensures { FitIs named_words [] (slice at stop file.now) result }
{
    let size = long_label(file, at, stop)?;
    let room = stop - at;
    if room < size + 2 {
        return Err(Flaw::TooLong);
    }
    fitting(size + 2 + 2 * (word_at(file, at + size) as usize), room)
}

// A name that must fit the label, and so many bytes behind it.
fn named_size(file: &[u8], more: usize, at: usize, stop: usize) -> Result<usize, Flaw>
    requires { (at ≤ stop) × (stop ≤ length file.now) × (more < 256) }
    ensures { FitIs (named more) [] (slice at stop file.now) result }
{
    let size = long_label(file, at, stop)?;
    fitting(size + more, stop - at)
}

// Own data of a row's shape, its name judged too, in the body from at to stop; count is the count word of the chunk around.
pub fn own_size(file: &[u8], row: u64, count: u32, at: usize, stop: usize) -> Result<usize, Flaw>
    requires { (at ≤ stop) × (stop ≤ length file.now) × (count < 65536) }
    ensures { (around : List ℕ) → CountIs around count → FitIs (shape_in row) around (slice at stop file.now) result }
{
    let kind = studio_row::kind(row);
    match kind {
        0 => fitting(studio_row::size(row), stop - at),
        1 => short_label(file, at, stop),
        2 => counted_size(file, studio_row::size(row), at, stop),
        3 => fitting(studio_row::size(row) * (count as usize), stop - at),
        4 => named_words_size(file, at, stop),
        _ => named_size(file, studio_row::size(row), at, stop),
    }
}

// The count word with which own data from at to stop begins.
pub fn count_of(file: &[u8], at: usize, stop: usize) -> u32
    requires { (at ≤ stop) × (stop ≤ length file.now) }
    ensures { CountIs (slice at stop file.now) result }
{
    if stop - at == 0 {
        return 0;
    }
    if stop - at == 1 {
        return file[at] as u32;
    }
    word_at(file, at)
}
