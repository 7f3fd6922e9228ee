// The first child of an identifier in a run of an accepted file: siblings are passed over by their lengths, and nothing is judged
// again.
#![tactic(auto)]

ghost use Rattle.std.specs.Prelude.{◌≡◌, true};
ghost use Rattle.studio_rules.specs.Table.{listed};
ghost use Rattle.studio_rules.specs.Layout.{Run, offset_of};
ghost use Rattle.studio_rules.specs.Rules.{Parent};
ghost use Rattle.studio_child.specs.Runs.{Spans, SomeRun};

use shared_numbers::{long_at, word_at};

// Where the first chunk of an identifier stands among those from at to stop; stop, where there is none.
pub fn next_child(file: &[u8], id: u32, at: usize, stop: usize) -> usize
    requires { (listed id ≡ true) × SomeRun file.now at stop }
    ensures { (p : Parent) (t : Run) → Spans p t file.now at stop → result ≡ offset_of id at t }
{
    let mut o = at;
    // a `while`: each chunk's length tells where the next begins
    while o < stop {
        if word_at(file, o) == id {
            return o;
        }
        o += long_at(file, o + 2) as usize;
    }
    o
}
