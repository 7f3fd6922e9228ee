// The names of flat rows: zeros in them, whether they fit the label, whether they differ, and whether each group's is a
// material's.
#![tactic(auto)]

ghost use Rattle.std.specs.Prelude.{◌≡◌, ℕ, Bool, true, List, ◌+◌, ◌*◌, ◌<◌, ◌≤◌, [], length, IfSome};
ghost use Rattle.std.specs.Option.{unwrap_or};
ghost use Rattle.shared_words.specs.Conditions.{answered};
ghost use Rattle.shared_words.specs.Lists.{first_fault};
ghost use Rattle.studio_figure_rules.specs.Given.{over};
ghost use Rattle.studio_figure_rules.specs.Judged.{one_of, differ};
ghost use Rattle.studio_figure_rows.specs.Rows.{sum_to, part, name_at};
ghost use Rattle.studio_figure_names.specs.Names.{names_in, name_asked, Tells, Repeated, Blank, Gathered, ToldOf};

use shared_labels::label_size;
use shared_name_tree::{add, find};
use shared_names::same_name;
use shared_words::Refusal;
use studio_figure_rows::number;
use studio_write_judge::first_zero;

// So many names are quicker compared with each other than put into a tree.
const FEW: usize = 32;

// What is asked of each name.
#[derive(Clone, Copy)]
pub enum Question {
    // Whether it has a zero.
    Zero,
    // Whether it fits the label.
    Label,
}

// The answer for one name.
fn judge_name(name: &[u8], question: Question) -> Result<(), Refusal>
    ensures { result ≡ answered (name_asked question name.now) }
{
    match question {
        Question::Zero => {
            let zero = first_zero(name);
            if zero < name.len() {
                return Err(Refusal::Name(zero));
            }
            Ok(())
        }
        Question::Label => {
            let taken = label_size(name, 0, name.len());
            if taken < name.len() {
                return Err(Refusal::Text(taken));
            }
            Ok(())
        }
    }
}

// That of the first n names of a row of things of `width` numbers, where the first name begins at `from`.
pub fn judge_names(
    names: &[u8],
    from: usize,
    row: &[u32],
    width: usize,
    n: usize,
    question: Question,
) -> Result<(), Refusal>
    requires { (0 < width) × (width * n ≤ length row.now) × (from + sum_to width 0 row.now n ≤ length names.now) }
    ensures { result ≡ answered (over (name_asked question) (names_in width row.now names.now from n)) }
{
    let mut at = from;
    for i in 0..n {
        let end = at + number(row, width, 0, i);
        judge_name(&names[at..end], question)?;
        at = end;
    }
    Ok(())
}

// Whether a name, of `len` bytes at a position, is one of the first n of a row.
fn is_one_of(
    names: &[u8],
    from: usize,
    row: &[u32],
    width: usize,
    n: usize,
    at: usize,
    len: usize,
) -> bool
    requires { (0 < width) × (width * n ≤ length row.now) × (from + sum_to width 0 row.now n ≤ length names.now) × (at + len ≤ length names.now) }
    ensures { result ≡ one_of (names_in width row.now names.now from n) (part at len names.now) }
{
    let mut next = from;
    for i in 0..n {
        let its = number(row, width, 0, i);
        if same_name(names, next, its, at, len) {
            return true;
        }
        next += its;
    }
    false
}

// The first of the n names that is among those before it.
fn first_repeated(names: &[u8], from: usize, row: &[u32], width: usize, n: usize) -> Option<usize>
    requires { (0 < width) × (width * n ≤ length row.now) × (from + sum_to width 0 row.now n ≤ length names.now) }
    ensures is { Repeated (name_at width row.now names.now from) n (unwrap_or result n) }
    ensures within { IfSome result (λ i. i < n) }
{
    let mut at = from;
    for i in 0..n {
        let len = number(row, width, 0, i);
        if is_one_of(names, from, row, width, i, at, len) {
            return Some(i);
        }
        at += len;
    }
    None
}

// The first of n groups that a test does not hold of: it is given where a name begins and its length, and its caller has the names.
fn first_group<F: Fn(usize, usize) -> bool>(
    from: usize,
    groups: &[u32],
    n: usize,
    is_good: F,
) -> Option<usize>
    requires callable { (at len : ℕ) → at + len ≤ from + sum_to 2 0 groups.now n → F.pre is_good at len }
    requires n_in_bounds { (2 * n ≤ length groups.now) × (from + sum_to 2 0 groups.now n < 18446744073709551616) }
    ensures is { (names : List ℕ) (good : List ℕ → Bool) → Tells (F.post is_good) (from + sum_to 2 0 groups.now n) names good →
        unwrap_or result n ≡ first_fault good (names_in 2 groups.now names from n) }
    ensures within { IfSome result (λ i. i < n) }
{
    let mut at = from;
    for i in 0..n {
        let len = number(groups, 2, 0, i);
        if !is_good(at, len) {
            return Some(i);
        }
        at += len;
    }
    None
}

// The first of n groups whose name is none of the `count` names of a row.
fn first_other(
    names: &[u8],
    first: usize,
    row: &[u32],
    width: usize,
    count: usize,
    from: usize,
    groups: &[u32],
    n: usize,
) -> Option<usize>
    requires width_nonzero { (0 < width) × (width * count ≤ length row.now) × (first + sum_to width 0 row.now count ≤ length names.now) }
    requires n_in_bounds { (2 * n ≤ length groups.now) × (from + sum_to 2 0 groups.now n ≤ length names.now) }
    ensures is { unwrap_or result n ≡ first_fault (one_of (names_in width row.now names.now first count))
        (names_in 2 groups.now names.now from n) }
    ensures within { IfSome result (λ i. i < n) }
{
    first_group(
        from,
        groups,
        n,
        |at, len| is_one_of(names, first, row, width, count, at, len),
    )
}

// ---- the same, with a tree of the names

// The first of n names into a tree, up to one that is there; how many.
fn gather(
    names: &[u8],
    from: usize,
    row: &[u32],
    width: usize,
    n: usize,
    nodes: &mut [u32],
) -> usize
    requires width_nonzero { (0 < width) × (width * n ≤ length row.now) × (from + sum_to width 0 row.now n ≤ length names.now) }
    requires blank { Blank names.now nodes.old n }
    ensures { Gathered names.now (name_at width row.now names.now from) n result nodes.new }
{
    let mut at = from;
    for i in 0..n {
        let len = number(row, width, 0, i);
        if !add(names, nodes, i, at, len) {
            return i;
        }
        at += len;
    }
    n
}

// What is asked of `count` names, and of n groups against them: the first name that is among those before it, and the first group
// whose name is none of them.
#[derive(Clone, Copy)]
struct Told {
    repeated: Option<usize>,
    unnamed: Option<usize>,
}

// That, with a row for a tree of the names.
fn tell_with(
    names: &[u8],
    first: usize,
    row: &[u32],
    width: usize,
    count: usize,
    from: usize,
    groups: &[u32],
    n: usize,
    nodes: &mut [u32],
) -> Told
    requires width_nonzero { (0 < width) × (width * count ≤ length row.now) × (first + sum_to width 0 row.now count ≤ length names.now) }
    requires n_in_bounds { (2 * n ≤ length groups.now) × (from + sum_to 2 0 groups.now n ≤ length names.now) }
    requires blank { Blank names.now nodes.old count }
    ensures { ToldOf (name_at width row.now names.now first) count
        (names_in 2 groups.now names.now from n) n result }
{
    let gathered = gather(names, first, row, width, count, nodes);
    if gathered < count {
        let unnamed = first_other(names, first, row, width, count, from, groups, n);
        return Told {
            repeated: Some(gathered),
            unnamed,
        };
    }
    let unnamed = first_group(
        from,
        groups,
        n,
        |at, len| find(names, nodes, gathered, at, len),
    );
    Told {
        repeated: None,
        unnamed,
    }
}

// Whether a tree may hold so many names: no figure of 1,048,576 bytes has more, and a number of the row holds where each begins.
fn is_for_tree(names: &[u8], count: usize) -> bool
    ensures { result ≡ true → (count ≤ 36864) × (length names.now < 4294967296) }
{
    count <= 36864 && names.len() < 4294967296
}

// That, for any names: those that are not for a tree are compared with each other. Where there are not many, a short row is enough,
// which is quicker made. One function answers both questions, so that the long row is on the stack once, and for many names alone.
fn tell(
    names: &[u8],
    first: usize,
    row: &[u32],
    width: usize,
    count: usize,
    from: usize,
    groups: &[u32],
    n: usize,
) -> Told
    requires width_nonzero { (0 < width) × (width * count ≤ length row.now) × (first + sum_to width 0 row.now count ≤ length names.now) }
    requires n_in_bounds { (2 * n ≤ length groups.now) × (from + sum_to 2 0 groups.now n ≤ length names.now) }
    ensures { ToldOf (name_at width row.now names.now first) count
        (names_in 2 groups.now names.now from n) n result }
{
    if !is_for_tree(names, count) {
        let repeated = first_repeated(names, first, row, width, count);
        let unnamed = first_other(names, first, row, width, count, from, groups, n);
        return Told { repeated, unnamed };
    }
    if count <= 1024 {
        let mut few = [0u32; 4096];
        return tell_with(names, first, row, width, count, from, groups, n, &mut few);
    }
    let mut nodes = [0u32; 147456];
    tell_with(names, first, row, width, count, from, groups, n, &mut nodes)
}

// The first of the n names that an earlier one has too. A few are compared with each other.
pub fn judge_differ(
    names: &[u8],
    from: usize,
    row: &[u32],
    width: usize,
    n: usize,
) -> Result<(), Refusal>
    requires { (0 < width) × (width * n ≤ length row.now) × (from + sum_to width 0 row.now n ≤ length names.now) }
    ensures { result ≡ answered (differ [] (names_in width row.now names.now from n)) }
{
    let repeated = if n <= FEW {
        first_repeated(names, from, row, width, n)
    } else {
        tell(names, from, row, width, n, 0, row, 0).repeated
    };
    match repeated {
        Some(name) => Err(Refusal::SameName(name)),
        None => Ok(()),
    }
}

// The first of n groups whose name no material has.
pub fn first_unnamed(
    names: &[u8],
    first: usize,
    materials: &[u32],
    from: usize,
    groups: &[u32],
    n: usize,
) -> Option<usize>
    requires { (first + sum_to 1 0 materials.now (length materials.now) ≤ length names.now) × (2 * n ≤ length groups.now) ×
        (from + sum_to 2 0 groups.now n ≤ length names.now) }
    ensures is { unwrap_or result n ≡ first_fault (one_of (names_in 1 materials.now names.now first (length materials.now)))
        (names_in 2 groups.now names.now from n) }
    ensures within { IfSome result (λ i. i < n) }
{
    let count = materials.len();
    if count <= FEW {
        return first_other(names, first, materials, 1, count, from, groups, n);
    }
    tell(names, first, materials, 1, count, from, groups, n).unnamed
}
