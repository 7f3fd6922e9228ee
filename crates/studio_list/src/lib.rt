// The list of an accepted file's known chunks: seven numbers for each, into a lent row of numbers or of bytes.
#![tactic(auto)]

ghost use Rattle.std.specs.Prelude.{◌≡◌};
ghost use Rattle.studio_rules.specs.Encodings.{flat_records, record_bytes};
ghost use Rattle.shared_words.specs.Effects.{leaving};
ghost use Rattle.studio_rules.specs.Calls.{list_call};
ghost use Rattle.studio_list_rows.specs.Lent.{lent, Room};
ghost use Rattle.studio_list.specs.Rows.{list_rows};

use shared_words::Refusal;
use studio_list_rows::{RECORD_BYTES, RECORD_NUMBERS};
use studio_rules::Counts;

// The list of a figure's known chunks into the rows that are in use, where there is room for so many records.
// (The file is a run of one chunk. With no other call of `list_chunk`, a chunk without children costs `list_run` no call.)
fn list_rows(
    file: &[u8],
    records: &mut [u32],
    bytes: &mut [u8],
    room: usize,
) -> Result<Counts, Refusal>
    requires { Room (lent records.old bytes.old) room }
    ensures { leaving result (lent records.new bytes.new) ≡
        list_rows file.now room (lent records.old bytes.old) }
{
    let counts = studio_check::check(file)?;
    if room < counts.records {
        return Err(Refusal::NoRoom(counts.records));
    }
    let slots = studio_lookup::slots();
    studio_list_walk::list_run(file, &slots, records, bytes, 0, file.len(), 0, 0, 0);
    Ok(counts)
}

// The list of a figure's known chunks, in file order, into a lent row whose room is counted in whole records. Answers
// what the check answers, or that there is no room; a refusal leaves the row as it was.
pub fn list(file: &[u8], row: &mut [u32]) -> Result<Counts, Refusal>
    ensures answer { result ≡ (list_call flat_records file.now row.old).answer }
    ensures filled { row.new ≡ (list_call flat_records file.now row.old).rows }
{
    let mut unused = [0u8; 0];
    let room = row.len() / RECORD_NUMBERS;
    list_rows(file, row, &mut unused, room)
}

// The same list as bytes: seven numbers a record, four bytes a number.
pub fn list_bytes(file: &[u8], row: &mut [u8]) -> Result<Counts, Refusal>
    ensures answer { result ≡ (list_call record_bytes file.now row.old).answer }
    ensures filled { row.new ≡ (list_call record_bytes file.now row.old).rows }
{
    let mut unused = [0u32; 0];
    let room = row.len() / RECORD_BYTES;
    list_rows(file, &mut unused, row, room)
}
