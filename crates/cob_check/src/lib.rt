// The check of a file: the header, then the walk over its chunks. What must be remembered, the identifiers seen, stands in
// zeroed rows that the caller of the walk lends.
#![tactic(auto)]

ghost use Rattle.std.specs.Prelude.{◌≡◌, [], ◌≤◌, length, take, drop};
ghost use Rattle.shared_words.specs.Lists.{same};
ghost use Rattle.cob_rules.specs.Layout.{file_header};
ghost use Rattle.cob_rules.specs.Walk.{walk, verdict};
ghost use Rattle.cob_rules.specs.Calls.{check_call};
ghost use Rattle.cob_check.specs.Walks.{Prepared, WalkIs};

use cob_step::{Step, step_at};
use shared_words::Refusal;

// What a walk has counted: the nodes of the search tree, one more than the chunks before END, and the records.
#[derive(Clone, Copy)]
pub struct Walked {
    pub nodes: usize,
    pub records: usize,
}

// the name and version, 13 spaces and a newline
const HEADER: &[u8; 32] = b"Caligari V00.01BLH             \n";

// Whether a file begins with the header.
fn is_headed(file: &[u8]) -> bool
    ensures { result ≡ same (take 32 file.now) file_header }
{
    file.starts_with(HEADER)
}

// The walk over the chunks, up to END and the end of the file.
fn walk_chunks(file: &[u8], ids: &mut [u32], links: &mut [u32]) -> Result<Walked, Refusal>
    requires { Prepared file.now ids.old links.old × (32 ≤ length file.now) }
    ensures { WalkIs (walk [] 32 (drop 32 file.now)) result ids.new links.new }
{
    let mut at = 32usize;
    let mut count = 1usize;
    let mut records = 1usize;
    // a `while`: each chunk's size tells where the next begins
    while at < file.len() {
        match step_at(file, at, ids, links, count)? {
            Step::Last(next) => {
                if next < file.len() {
                    return Err(Refusal::Trailing(next));
                }
                return Ok(Walked {
                    nodes: count,
                    records,
                });
            }
            Step::Listed(next) => {
                at = next;
                count += 1;
                records += 1;
            }
            Step::Skipped(next) => {
                at = next;
                count += 1;
            }
        }
    }
    Err(Refusal::Missing(at))
}

// The file, into zeroed rows with room for its identifiers.
pub fn judge_file(file: &[u8], ids: &mut [u32], links: &mut [u32]) -> Result<Walked, Refusal>
    requires { Prepared file.now ids.old links.old }
    ensures { WalkIs (verdict file.now) result ids.new links.new }
{
    if !is_headed(file) {
        return Err(Refusal::Header);
    }
    walk_chunks(file, ids, links)
}

// The check of a file: the count of its records, or the refusal.
pub fn check(file: &[u8]) -> Result<usize, Refusal>
    ensures { result ≡ check_call file.now }
{
    if 1048576 < file.len() {
        return Err(Refusal::TooLong);
    }
    let mut ids = [0u32; 52429];
    let mut links = [0u32; 104858];
    let walked = judge_file(file, &mut ids, &mut links)?;
    Ok(walked.records)
}
