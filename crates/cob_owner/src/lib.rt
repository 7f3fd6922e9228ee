// The topmost owner of a record, through its parents.
#![tactic(auto)]

ghost use Rattle.std.specs.Prelude.{◌≡◌, ◌<◌, length};
ghost use Rattle.cob_owner.specs.Top.{top_of};

// parents[k] is the number of the record that owns record k, or k where none does.
pub fn topmost(parents: &[u32], k: u32) -> u32
    requires { k < length parents.now }
    ensures { result ≡ top_of parents.now k }
{
    let i = k as usize;
    let p = parents[i];
    if p < k { topmost(parents, p) } else { k }
}
