// Where the parts of an accepted file stand, and what father each tells. A B002 stands only in the one B000 of 4D4D, so nothing
// else is looked into.
#![tactic(auto)]

ghost use Rattle.std.specs.Prelude.{◌≡◌, List, ℕ, ◌+◌, ◌<◌, length};
ghost use Rattle.studio_rules.specs.OwnData.{father};
ghost use Rattle.studio_rules.specs.Layout.{Run, known, size, child, offset_of};
ghost use Rattle.studio_rules.specs.Rules.{Parent, Meets};
ghost use Rattle.studio_rules.specs.Gives.{parts};
ghost use Rattle.studio_child.specs.Runs.{Spans, Begins, Accepted};
ghost use Rattle.studio_parts_find.specs.Parts.{PartsAt, SomeParts, SomePart};

use shared_numbers::{long_at, word_at};
use studio_child::next_child;

// Where a run of chunks stands.
#[derive(Clone, Copy)]
pub struct Between {
    pub from: usize,
    pub stop: usize,
}

// Where the children of the B000 stand; nothing, where there is none.
pub fn find_parts(file: &[u8]) -> Between
    requires { Accepted file.now }
    ensures { (kids : Run) → Meets file.now kids → PartsAt file.now kids result.from result.stop }
{
    let end = file.len();
    let at = next_child(file, 0xB000, 6, end);
    if at < end {
        return Between {
            from: at + 6,
            stop: at + long_at(file, at + 2) as usize,
        };
    }
    Between {
        from: end,
        stop: end,
    }
}

// The father of the part whose B002 stands at a position: the last word of its B010.
pub fn father_at(file: &[u8], at: usize) -> u32
    requires { Begins 0xB002 file.now at }
    ensures is { (p : Parent) (own : List ℕ) (kids rest : Run) (stop : ℕ) → Spans p (known 0xB002 own kids rest) file.now at stop →
        result ≡ father (child 0xB010 kids) }
    ensures small { result < 65536 }
{
    let stop = at + long_at(file, at + 2) as usize;
    let told = next_child(file, 0xB010, at + 6, stop);
    let behind = told + long_at(file, told + 2) as usize;
    word_at(file, behind - 2)
}

// Where the next part stands behind the one at a position, in a run that ends at stop; stop, where there is none.
pub fn next_part(file: &[u8], at: usize, stop: usize) -> usize
    requires { SomePart file.now at stop }
    ensures { (p : Parent) (own : List ℕ) (kids rest : Run) → Spans p (known 0xB002 own kids rest) file.now at stop →
        result ≡ offset_of 0xB002 (at + (6 + length own + size kids)) rest }
{
    next_child(file, 0xB002, at + long_at(file, at + 2) as usize, stop)
}

// How many parts there are, in the B000 whose children stand in a run.
pub fn count_parts(file: &[u8], run: Between) -> usize
    requires { SomeParts file.now run.from run.stop }
    ensures { (kids : Run) → PartsAt file.now kids run.from run.stop → result ≡ length (parts kids) }
{
    let mut n = 0usize;
    let mut at = next_child(file, 0xB002, run.from, run.stop);
    // a `while`: each part tells where the next is looked for
    while at < run.stop {
        n += 1;
        at = next_part(file, at, run.stop);
    }
    n
}
