// MAT4: its sub-chunks one after another, up to MAT_END.
#![tactic(auto)]

ghost use Rattle.std.specs.Prelude.{◌≡◌, false, ◌+◌, ◌≤◌, length};
ghost use Rattle.std.proofs.Math.Seq.{slice};
ghost use Rattle.c4d_rules.specs.Read.{walk};
ghost use Rattle.c4d_rules.specs.Walk.{material_grammar};
ghost use Rattle.c4d_materials.specs.Counted.{counted_from, Few};

use c4d_blocks::{Block, material_at};
use shared_words::Refusal;

const MAT_END: usize = 0;

const MAT_NEXT: usize = 65;

// How many MAT_NEXTs the MAT4 at a position has, which ends at another.
pub fn materials(file: &[u8], chunk: usize, to: usize) -> Result<usize, Refusal>
    requires { (chunk + 8 ≤ to) × (to ≤ length file.now) }
    ensures is { result ≡ counted_from 0 (walk (material_grammar chunk) false (chunk + 8) (slice (chunk + 8) to file.now)) }
    ensures few { Few to result }
{
    let mut at = chunk + 8;
    let mut ended = false;
    let mut nexts = 0usize;
    // a `while`: each chunk's size tells where the next begins
    while at < to {
        let Some(Block { id, len }) = material_at(file, at, to) else {
            return Err(Refusal::Overrun(at));
        };
        if ended {
            return Err(Refusal::Order(at));
        }
        ended = id == MAT_END;
        nexts += (id == MAT_NEXT) as usize;
        at += 4 + len;
    }
    if !ended {
        return Err(Refusal::Order(chunk));
    }
    Ok(nexts)
}
