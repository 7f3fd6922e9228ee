// Bytes and little-endian numbers in a slice, read and written, 32-bit floats read, and the test of a float's exponent. (A number
// of each size is one call of the library: a function over both would need a trait for its conversions, and be longer than the two.)
#![tactic(auto)]

ghost use Rattle.std.specs.Prelude.{◌≡◌, true, [], ◌∷◌, ◌+◌, ◌<◌, ◌≤◌, length, get_or};
ghost use Rattle.shared_words.specs.Bytes.{le};
ghost use Rattle.shared_words.specs.Floats.{finite};
ghost use Rattle.shared_words.specs.Floats.{float};
ghost use Rattle.shared_numbers.specs.Numbers.{Word, Long, long_at};
ghost use Rattle.shared_numbers.specs.Put.{Put};

// The 2-byte number at a position.
pub fn word_at(s: &[u8], at: usize) -> u32
    requires { at + 2 ≤ length s.now }
    ensures { Word s.now at result }
{
    u16::from_le_bytes([s[at], s[at + 1]]) as u32
}

// The 4-byte number at a position.
pub fn long_at(s: &[u8], at: usize) -> u32
    requires { at + 4 ≤ length s.now }
    ensures { Long s.now at result }
{
    u32::from_le_bytes([s[at], s[at + 1], s[at + 2], s[at + 3]])
}

// A 32-bit float, from its highest bit down, in the format's own words (IEEE 754, binary32), in the definition (`exponent`,
// `finite` of crate shared_words) and here:
//   1 sign bit
//   8 exponent bits     bits / 2 ^ 23 % 2 ^ 8     bits / ABOVE_FRACTION % EXPONENTS
//   23 fraction bits
// "eight ones": infinite or not a number     0b1111_1111     EIGHT_ONES
const ABOVE_FRACTION: u32 = 0x80_0000;

const EXPONENTS: u32 = 0x100;

const EIGHT_ONES: u32 = 0xFF;

// Whether the float of these bits is neither infinite nor not a number.
pub fn is_finite(bits: u32) -> bool
    ensures { result ≡ finite bits }
{
    bits / ABOVE_FRACTION % EXPONENTS != EIGHT_ONES
}

// The float at a position, whose bits pass the test.
pub fn float_at(s: &[u8], at: usize) -> f32
    requires { (at + 4 ≤ length s.now) × (finite (long_at s.now at) ≡ true) }
    ensures { result ≡ float (long_at s.now at) }
{
    f32::from_bits(long_at(s, at))
}

// A 4-byte number as a position or a count.
pub fn wide(x: u32) -> usize
    ensures { result ≡ x }
{
    x as usize
}

// ---- written

// Puts a byte at a position of out, and answers the position behind it.
pub fn put_byte(b: u8, at: usize, out: &mut [u8]) -> usize
    requires { at < length out.old }
    ensures { Put out.old at (b ∷ []) out.new result }
{
    out[at] = b;
    at + 1
}

// Puts a 2-byte number at a position of out, and answers the position behind it.
pub fn put_word(v: u16, at: usize, out: &mut [u8]) -> usize
    requires { at + 2 ≤ length out.old }
    ensures { Put out.old at (le 2 v) out.new result }
{
    out[at..at + 2].copy_from_slice(&v.to_le_bytes());
    at + 2
}

// Puts a 4-byte number at a position of out, and answers the position behind it.
pub fn put_long(v: u32, at: usize, out: &mut [u8]) -> usize
    requires { at + 4 ≤ length out.old }
    ensures { Put out.old at (le 4 v) out.new result }
{
    out[at..at + 4].copy_from_slice(&v.to_le_bytes());
    at + 4
}
