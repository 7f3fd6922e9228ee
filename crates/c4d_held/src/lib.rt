// One sub-chunk of OBJ5: whether it may stand where it does, and what is then known of the object that it belongs to.
#![tactic(auto)]

ghost use Rattle.std.specs.Prelude.{◌≡◌, not, List, [], ◌∷◌, ◌++◌, ℕ, ◌+◌, ◌≤◌, ◌<◌, length, IfSome};
ghost use Rattle.c4d_rules.specs.Kinds.{t_object};
ghost use Rattle.c4d_rules.specs.Combinations.{once_each};
ghost use Rattle.c4d_parts.specs.Bits.{numbered};
ghost use Rattle.c4d_held.specs.Held.{held_with, number_of, last_of, is_material, JudgesTexture, JudgesOutside};

use c4d_parts::{combination, is_there, with_part};
use shared_big_endian::long_at;
use shared_words::Refusal;

// Of the object that is open: whether it repeats what it may not; which sub-chunks it has, as bits.
#[derive(Clone, Copy)]
pub struct Held {
    pub repeated: bool,
    pub present: usize,
}

pub const T_END: usize = 0;

pub const T_OBJECT: usize = 1;

pub const T_TEXTURE: usize = 23;

const TEXTURE_LENGTH: usize = 64;

const MINUS_ONE: usize = 0xFFFF_FFFF;

// Of an object that has only begun.
pub fn begun() -> Held
    ensures { result ≡ held_with [] }
{
    Held {
        repeated: false,
        present: 0,
    }
}

// Whether an object repeats what it may not, with one of the listed sub-chunks more.
fn repeats(held: Held, id: usize) -> bool
    requires { (16 ≤ id) × (id ≤ 32) }
    ensures { (ids : List ℕ) → held ≡ held_with ids → result ≡ not (once_each (ids ++ (id ∷ []))) }
{
    if held.repeated {
        return true;
    }
    if id == T_TEXTURE {
        return false;
    }
    is_there(held.present, id)
}

// With one sub-chunk more, listed or not.
pub fn with_one(held: Held, id: usize) -> Held
    requires { held.present < 131072 }
    ensures { (ids : List ℕ) → held ≡ held_with ids → result ≡ held_with (ids ++ (id ∷ [])) }
{
    match id {
        16..=32 => Held {
            repeated: repeats(held, id),
            present: with_part(held.present, id),
        },
        _ => held,
    }
}

// At its T_END: the number of its combination, unless it has none or repeats what it may not.
pub fn combined(held: Held) -> Option<usize>
    ensures is { (ids : List ℕ) → held ≡ held_with ids → result ≡ numbered (number_of ids) }
    ensures small { IfSome result (λ n. n ≤ 9) }
{
    if held.repeated {
        return None;
    }
    combination(held.present)
}

// Whether a texture may have this material: -1, or one below a number, which is 0 without a MAT4.
fn is_material(material: usize, below: usize) -> bool
    requires { below ≤ 0x8000_0000 }
    ensures { result ≡ is_material (last_of below) material }
{
    material < below || material == MINUS_ONE
}

// The material of a texture in an object: the last four of 64 bytes.
pub fn judge_texture(file: &[u8], at: usize, len: usize, below: usize) -> Result<usize, Refusal>
    requires { (at + (4 + len) ≤ length file.now) × (below ≤ 0x8000_0000) }
    ensures { JudgesTexture file.now at len below result }
{
    if len != TEXTURE_LENGTH {
        return Err(Refusal::Length(at));
    }
    let material = long_at(file, at + 64);
    if !is_material(material, below) {
        return Err(Refusal::Material(at));
    }
    Ok(material)
}

// A sub-chunk between two objects that begins none: it is passed over, or refused.
pub fn judge_outside(at: usize, id: usize, len: usize) -> Result<(), Refusal>
    requires { id ≡ t_object → ⊥ }
    ensures { JudgesOutside at id len result }
{
    match id {
        T_END => Err(Refusal::Order(at)),
        T_TEXTURE if len != TEXTURE_LENGTH => Err(Refusal::Length(at)),
        16..=32 => Err(Refusal::Order(at)),
        _ => Ok(()),
    }
}
