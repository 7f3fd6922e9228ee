// A set of names that stand in one slice, as a digital search tree in a lent row. A node has four numbers: where its name begins, how long it
// is, and two links, each the number of a later node or 0. A search takes its first 32 sides by a number that is mixed from all bytes of the
// name, and then eight by each of its bytes: so however names are chosen, it takes no more steps than that.
#![tactic(auto)]

ghost use Rattle.std.specs.Prelude.{◌≡◌, ◌+◌, ◌*◌, ◌<◌, ◌≤◌, length, get_or, take, drop};
ghost use Rattle.shared_words.specs.Lists.{same};
ghost use Rattle.shared_name_tree.specs.Names.{name_of, held, mixed, next_of, Holds, Ready, Landed, Grown};

use shared_names::same_bytes;

// How far a search has come: the bits that are left, with a 1 above them, and how many bytes were taken.
#[derive(Clone, Copy)]
struct Turn {
    rest: usize,
    taken: usize,
}

// The number that is mixed from the bytes of a name.
fn mix(name: &[u8]) -> usize
    ensures { (result ≡ mixed 0 name.now) × (result < 4294967296) }
{
    let mut m = 0usize;
    for b in name {
        m = (16777619 * m + *b as usize) % 4294967296;
    }
    m
}

// One side further; where no bits are left, the next byte.
fn next(name: &[u8], turn: Turn) -> Turn
    ensures { result ≡ next_of name.now turn }
{
    let rest = turn.rest / 2;
    let taken = turn.taken;
    if rest != 1 {
        return Turn { rest, taken };
    }
    if taken < name.len() {
        return Turn {
            rest: 256 + name[taken] as usize,
            taken: taken + 1,
        };
    }
    Turn { rest: 1, taken }
}

// Whether node k has a name.
fn is_at(names: &[u8], nodes: &[u32], k: usize, name: &[u8]) -> bool
    requires { (4 * k + 2 ≤ length nodes.now) × (get_or nodes.now (4 * k) 0 + get_or nodes.now (4 * k + 1) 0 ≤ length names.now) }
    ensures { result ≡ same (name_of names.now nodes.now k) name.now }
{
    let at = nodes[4 * k] as usize;
    let end = at + nodes[4 * k + 1] as usize;
    same_bytes(&names[at..end], name)
}

// The search for a name, from the first node: the free link where it ended, or none where it came to the name.
fn descend(names: &[u8], nodes: &[u32], count: usize, name: &[u8]) -> Option<usize>
    requires { Holds names.now nodes.now count }
    ensures { Landed names.now nodes.now count name.now result }
{
    if count == 0 {
        return Some(2);
    }
    let mut k = 0usize;
    let mut turn = Turn {
        rest: 4294967296 + mix(name),
        taken: 0,
    };
    while !is_at(names, nodes, k, name) {
        let place = 4 * k + 2 + turn.rest % 2;
        let link = nodes[place] as usize;
        if link == 0 {
            return Some(place);
        }
        k = link;
        turn = next(name, turn);
    }
    None
}

// Whether a name is one of the first `count`.
pub fn find(names: &[u8], nodes: &[u32], count: usize, at: usize, len: usize) -> bool
    requires { Holds names.now nodes.now count × (at + len ≤ length names.now) }
    ensures { result ≡ held (name_of names.now nodes.now) count (take len (drop at names.now)) }
{
    descend(names, nodes, count, &names[at..at + len]).is_none()
}

// One name more, unless it is there; whether it was added.
pub fn add(names: &[u8], nodes: &mut [u32], count: usize, at: usize, len: usize) -> bool
    requires { Ready names.now nodes.old count at len }
    ensures { Grown names.now nodes.old count (take len (drop at names.now)) result nodes.new }
{
    let Some(place) = descend(names, nodes, count, &names[at..at + len]) else {
        return false;
    };
    nodes[place] = count as u32;
    nodes[4 * count] = at as u32;
    nodes[4 * count + 1] = len as u32;
    true
}
