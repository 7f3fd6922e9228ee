// The list of an accepted file's known chunks as a lent table of records. There is no heap, so the numbers go through a
// lent flat row, and both must have room.
#![tactic(auto)]

ghost use Rattle.std.specs.Prelude.{◌≡◌, ◌+◌, ◌*◌, ◌≤◌, length};
ghost use Rattle.shared_words.specs.Encodings.{beside};
ghost use Rattle.studio_rules.specs.Encodings.{flat_records};
ghost use Rattle.shared_words.specs.Effects.{leaving};
ghost use Rattle.studio_rules.specs.Gives.{record_numbers};
ghost use Rattle.studio_rules.specs.Calls.{list_call};
ghost use Rattle.studio_list_table.specs.Numbers.{record_no, taken};
ghost use Rattle.studio_list_table.specs.Listed.{in_table, in_row};

use shared_words::Refusal;
use studio_list_rows::RECORD_NUMBERS;
use studio_rules::{Counts, Record};

// The list into a flat row of which no more than `room` records are used.
fn list_beside(file: &[u8], row: &mut [u32], room: usize) -> Result<Counts, Refusal>
    ensures { leaving result row.new ≡ list_call (beside room flat_records) file.now row.old }
{
    let mut end = row.len();
    if room < end / RECORD_NUMBERS {
        end = RECORD_NUMBERS * room;
    }
    studio_list::list(file, &mut row[..end])
}

// How many records the list has put into the row; a refusal puts none.
fn records_in(listed: Result<Counts, Refusal>) -> usize
    ensures { result ≡ taken listed }
{
    match listed {
        Ok(counts) => counts.records,
        Err(_) => 0,
    }
}

// Record number i of a flat row.
fn record_at(row: &[u32], i: usize) -> Record
    requires { record_numbers * i + record_numbers ≤ length row.now }
    ensures { result ≡ record_no row.now i }
{
    let at = RECORD_NUMBERS * i;
    Record {
        identifier: row[at],
        offset: row[at + 1],
        len: row[at + 2],
        depth: row[at + 3],
        parent: row[at + 4],
        own: row[at + 5],
        next: row[at + 6],
    }
}

// The list of a figure's known chunks, in file order, into a lent table of records, by way of a lent flat row. Room is
// what both have room for. A refusal leaves both as they were.
pub fn list_records(file: &[u8], row: &mut [u32], table: &mut [Record]) -> Result<Counts, Refusal>
    ensures answer { result ≡ (in_table file.now row.old table.old).answer }
    ensures table { table.new ≡ (in_table file.now row.old table.old).rows }
    ensures row { row.new ≡ (in_row file.now row.old table.old).rows }
{
    let listed = list_beside(file, row, table.len());
    let n = records_in(listed);
    let numbers = &row[..];
    for i in 0..n {
        table[i] = record_at(numbers, i);
    }
    listed
}
