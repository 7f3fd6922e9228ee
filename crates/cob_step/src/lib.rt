// One step of the walk: the chunk at an offset, judged whole, after the chunks whose identifiers are in the search tree.
#![tactic(auto)]

ghost use Rattle.std.specs.Prelude.{◌≡◌, ◌≤◌, length};
ghost use Rattle.cob_seen.specs.Tree.{Ready};
ghost use Rattle.cob_chunk.specs.Chunks.{Stated};
ghost use Rattle.cob_step.specs.Steps.{within, refusal_of, BodyIs, Steps};

use cob_chunk::{Fault, is_end, is_listed, judge_chunk, kind_at};
use cob_seen::admit;
use shared_numbers::long_at;
use shared_words::Refusal;

// A good chunk, and where it ends: END, one that is listed, or another.
#[derive(Clone, Copy)]
pub enum Step {
    Last(usize),
    Listed(usize),
    Skipped(usize),
}

// Whether the header and a stated size are within the file.
fn is_within(file: &[u8], at: usize) -> bool
    requires { at ≤ length file.now }
    ensures { result ≡ within file.now at }
{
    let left = file.len() - at;
    if left < 20 {
        return false;
    }
    let size = long_at(file, at + 16);
    if 0x8000_0000 <= size {
        return true;
    }
    20 + size as usize <= left
}

// The refusal of a chunk's fault, at its offset.
fn refusal_at(fault: Fault, at: usize) -> Refusal
    ensures { result ≡ refusal_of at fault }
{
    match fault {
        Fault::Size => Refusal::Size(at),
        Fault::Length => Refusal::Length(at),
        Fault::Number => Refusal::Number(at),
        Fault::Index => Refusal::Index(at),
    }
}

// Where a chunk whose size and body are good ends.
fn body_at(file: &[u8], at: usize) -> Result<usize, Refusal>
    requires { Stated file.now at }
    ensures { BodyIs file.now at result }
{
    let n = judge_chunk(file, at).map_err(|fault| refusal_at(fault, at))?;
    Ok(at + 20 + n)
}

// The chunk at an offset, after count - 1 chunks.
pub fn step_at(
    file: &[u8],
    at: usize,
    ids: &mut [u32],
    links: &mut [u32],
    count: usize,
) -> Result<Step, Refusal>
    requires { (at ≤ length file.now) × Ready ids.old links.old count }
    ensures { Steps file.now at ids.old links.old count result ids.new links.new }
{
    if !is_within(file, at) {
        return Err(Refusal::Overrun(at));
    }
    let k = kind_at(file, at);
    if is_end(k) {
        let end = body_at(file, at)?;
        return Ok(Step::Last(end));
    }
    let id = long_at(file, at + 8);
    let parent = long_at(file, at + 12);
    if !admit(ids, links, count, id, parent) {
        return Err(Refusal::Owner(at));
    }
    let next = body_at(file, at)?;
    if is_listed(k) {
        Ok(Step::Listed(next))
    } else {
        Ok(Step::Skipped(next))
    }
}
