// The chunks of a file one after another: PLTF, MAT4 and OBJ5 in their order, the others skipped.
#![tactic(auto)]

ghost use Rattle.std.specs.Prelude.{◌≡◌, true, List, ℕ, ◌+◌, ◌≤◌, length};
ghost use Rattle.shared_words.specs.Refusals.{limit};
ghost use Rattle.c4d_rules.specs.Kinds.{Platform, Materials, Objects, kind_of};
ghost use Rattle.c4d_held.specs.Held.{last_of};
ghost use Rattle.c4d_chunks.specs.Steps.{kind_in, kind_of_listed, last_in, SmallLast, Enters, Walks};

use c4d_blocks::{Block, chunk_at};
use c4d_materials::materials;
use c4d_objects::{Figure, objects};
use shared_words::Refusal;

const PLTF: usize = 0x504C_5446;

const MAT4: usize = 0x4D41_5434;

const OBJ5: usize = 0x4F42_4A35;

// The chunks that are looked into.
#[derive(Clone, Copy)]
enum Listed {
    Platform,
    Materials,
    Objects,
}

// What is known before a chunk: the last material, where there was a MAT4; and what the OBJ5 has, where there was one.
#[derive(Clone, Copy)]
struct State {
    last: Option<usize>,
    figure: Option<Figure>,
}

fn kind_of_id(id: usize) -> Option<Listed>
    ensures { kind_in result ≡ kind_of id }
{
    match id {
        PLTF => Some(Listed::Platform),
        MAT4 => Some(Listed::Materials),
        OBJ5 => Some(Listed::Objects),
        _ => None,
    }
}

// The number that all materials are below: 0 without a MAT4.
fn below(last: Option<usize>) -> usize
    requires { SmallLast last }
    ensures is { last_of result ≡ last_in last }
    ensures small { result ≤ 0x8000_0000 }
{
    match last {
        Some(last) => last + 1,
        None => 0,
    }
}

// PLTF at a position.
fn enter_platform(at: usize, state: State) -> Result<State, Refusal>
    ensures { (s notes : List ℕ) (end : ℕ) → Enters Platform s at end state notes notes result }
{
    if at != 12 {
        return Err(Refusal::Order(at));
    }
    Ok(state)
}

// MAT4 from a position to another.
fn enter_materials(file: &[u8], at: usize, end: usize, state: State) -> Result<State, Refusal>
    requires { (at + 8 ≤ end) × (end ≤ length file.now) × (end ≤ limit) }
    ensures { (notes : List ℕ) → Enters Materials file.now at end state notes notes result }
{
    if state.last.is_some() {
        return Err(Refusal::Order(at));
    }
    if state.figure.is_some() {
        return Err(Refusal::Order(at));
    }
    let n = materials(file, at, end)?;
    Ok(State {
        last: Some(n),
        ..state
    })
}

// OBJ5 from a position to another. Its objects are noted.
fn enter_objects(
    file: &[u8],
    at: usize,
    end: usize,
    state: State,
    notes: &mut [u32],
) -> Result<State, Refusal>
    requires { (at + 8 ≤ end) × (end ≤ length file.now) × (end ≤ limit) × SmallLast state.last }
    ensures { Enters Objects file.now at end state notes.old notes.new result }
{
    if state.figure.is_some() {
        return Err(Refusal::Order(at));
    }
    let figure = objects(file, at, end, below(state.last), notes)?;
    Ok(State {
        figure: Some(figure),
        ..state
    })
}

// A listed chunk from a position to another.
fn enter(
    file: &[u8],
    at: usize,
    kind: Listed,
    end: usize,
    state: State,
    notes: &mut [u32],
) -> Result<State, Refusal>
    requires { (at + 8 ≤ end) × (end ≤ length file.now) × (end ≤ limit) × SmallLast state.last }
    ensures { Enters (kind_of_listed kind) file.now at end state notes.old notes.new result }
{
    match kind {
        Listed::Platform => enter_platform(at, state),
        Listed::Materials => enter_materials(file, at, end, state),
        Listed::Objects => enter_objects(file, at, end, state, notes),
    }
}

// All chunks of a file whose header is as it should be: how many objects and textures they have. The objects of an accepted
// one are noted, where there is room.
pub fn chunks(file: &[u8], notes: &mut [u32]) -> Result<Figure, Refusal>
    requires { (12 ≤ length file.now) × (length file.now ≤ limit) }
    ensures { Walks file.now notes.old notes.new result }
{
    let mut at = 12usize;
    let mut state = State {
        last: None,
        figure: None,
    };
    // a `while`: each chunk's size tells where the next begins
    while at < file.len() {
        let Some(Block { id, len }) = chunk_at(file, at, file.len()) else {
            return Err(Refusal::Overrun(at));
        };
        let end = at + (8 + len);
        let Some(kind) = kind_of_id(id) else {
            at = end;
            continue;
        };
        state = enter(file, at, kind, end, state, notes)?;
        at = end;
    }
    let none = Figure {
        objects: 0,
        textures: 0,
    };
    Ok(state.figure.unwrap_or(none))
}
