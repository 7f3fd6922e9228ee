// A set of 32-bit identifiers, as a digital search tree in lent rows: at most some 32 steps for any identifier, however they are
// chosen. Node k holds ids[k]; its two links are links[2 * k] and links[2 * k + 1], the number of a later node or 0 for none. A search
// takes the bits of x from the lowest up. The nodes are numbers in rows, and no boxes or map: the library has no heap.
#![tactic(auto)]

ghost use Rattle.std.specs.Prelude.{◌≡◌};
ghost use Rattle.shared_tree.specs.Tree.{Ended};
ghost use Rattle.cob_seen.specs.Tree.{bits, tree_in, Represents, Ready, Grown, Admitted, number_in};

use shared_numbers::wide;

// Where a search ended: at a node, with the bits that are left.
#[derive(Clone, Copy)]
struct Spot {
    at: usize,
    rest: u32,
}

// The search for x: to the node that holds it, or to one with no link on its side.
fn descend(ids: &[u32], links: &[u32], count: usize, x: u32) -> Spot
    requires { Represents ids.now links.now count }
    ensures { Ended bits (tree_in ids.now links.now) count x result.at result.rest }
{
    let mut at = 0usize;
    let mut rest = x;
    // a `while`: it follows links down the tree
    while ids[at] != x {
        let link = wide(links[2 * at + wide(rest % 2)]);
        if link == 0 {
            return Spot { at, rest };
        }
        at = link;
        rest = rest / 2;
    }
    Spot { at, rest }
}

// The number of x among the first `count` identifiers, if it is there.
pub fn find(ids: &[u32], links: &[u32], count: usize, x: u32) -> Option<usize>
    requires { Represents ids.now links.now count }
    ensures { result ≡ number_in ids.now count x }
{
    let at = descend(ids, links, count, x).at;
    if ids[at] == x { Some(at) } else { None }
}

// One identifier more, unless it is there; whether it was added.
pub fn add(ids: &mut [u32], links: &mut [u32], count: usize, x: u32) -> bool
    requires { Ready ids.old links.old count }
    ensures { Grown ids.old links.old count x result ids.new links.new }
{
    let spot = descend(ids, links, count, x);
    let at = spot.at;
    if ids[at] == x {
        return false;
    }
    links[2 * at + wide(spot.rest % 2)] = count as u32;
    ids[count] = x;
    true
}

// One identifier more, where its parent is there and it is not; whether it was added.
pub fn admit(ids: &mut [u32], links: &mut [u32], count: usize, id: u32, parent: u32) -> bool
    requires { Ready ids.old links.old count }
    ensures { Admitted ids.old count id parent result ids.new links.new }
{
    find(ids, links, count, parent).is_some() && add(ids, links, count, id)
}
