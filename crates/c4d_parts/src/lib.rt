// The sub-chunks that an object has, as the bits of one number: bit k is set where the one with identifier 16 + k is there.
// Bits, and no set of a library: the library has no heap.
#![tactic(auto)]

ghost use Rattle.std.specs.Prelude.{◌≡◌, List, [], ◌∷◌, ◌++◌, ℕ, ◌≤◌, ◌<◌, IfSome};
ghost use Rattle.c4d_rules.specs.Combinations.{is_in, combination as combination_of};
ghost use Rattle.c4d_parts.specs.Bits.{bits, exclusive_in, looked_up, numbered};

// Whether the sub-chunk of an identifier is there.
pub fn is_there(present: usize, id: usize) -> bool
    requires { (16 ≤ id) × (id ≤ 32) }
    ensures { (ids : List ℕ) → present ≡ bits ids → result ≡ is_in ids id }
{
    (present >> (id - 16)) % 2 == 1
}

// With one sub-chunk more.
pub fn with_part(present: usize, id: usize) -> usize
    requires { (16 ≤ id) × (id ≤ 32) × (present < 131072) }
    ensures { (ids : List ℕ) → present ≡ bits ids → result ≡ bits (ids ++ (id ∷ [])) }
{
    if is_there(present, id) {
        return present;
    }
    present + (1 << (id - 16))
}

// Without those that any object may have.
fn exclusive(present: usize) -> usize
    ensures { result ≡ exclusive_in present }
{
    present % 128 + present / 512 % 8 * 512 + present / 8192 % 4 * 8192
}

// The combination of a set of these: specs/Bits has the same sets, by the names of their sub-chunks.
fn look_up(set: usize) -> Option<usize>
    ensures is { result ≡ numbered (looked_up set) }
    ensures small { IfSome result (λ n. n ≤ 9) }
{
    match set {
        0x0001 | 0x0009 | 0x000B | 0x000D | 0x000F => Some(1),
        0x0010 | 0x4010 => Some(2),
        0x0011 | 0x4011 => Some(2),
        0x0020 => Some(3),
        0x0040 => Some(4),
        0x0200 => Some(5),
        0x0400 => Some(6),
        0x0801 => Some(7),
        0x2000 => Some(8),
        0 => Some(9),
        _ => None,
    }
}

// The number of the first combination that holds, if one does.
pub fn combination(present: usize) -> Option<usize>
    ensures is { (ids : List ℕ) → present ≡ bits ids → result ≡ numbered (combination_of (is_in ids)) }
    ensures small { IfSome result (λ n. n ≤ 9) }
{
    look_up(exclusive(present))
}
