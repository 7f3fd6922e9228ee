// Big-endian numbers in a slice, read and written, and single bytes. (Each is one call of the library: a function over both sizes
// would need a trait for its conversions, and be longer than the two.)
#![tactic(auto)]

ghost use Rattle.std.specs.Prelude.{◌≡◌, ◌+◌, ◌<◌, ◌≤◌, length, get_or};
ghost use Rattle.shared_words.specs.Bytes.{be};
ghost use Rattle.shared_numbers.specs.Put.{Put};
ghost use Rattle.shared_big_endian.specs.At.{Number};

// The byte at a position.
pub fn byte_at(s: &[u8], at: usize) -> usize
    requires { at < length s.now }
    ensures { (result ≡ get_or s.now at 0) × (result < 256) }
{
    s[at] as usize
}

// The 2-byte number at a position, the higher byte first.
pub fn word_at(s: &[u8], at: usize) -> usize
    requires { at + 2 ≤ length s.now }
    ensures { Number 2 s.now at result }
{
    u16::from_be_bytes([s[at], s[at + 1]]) as usize
}

// The 4-byte number at a position, the highest byte first.
pub fn long_at(s: &[u8], at: usize) -> usize
    requires { at + 4 ≤ length s.now }
    ensures { Number 4 s.now at result }
{
    u32::from_be_bytes([s[at], s[at + 1], s[at + 2], s[at + 3]]) as usize
}

// ---- written

// Puts a 2-byte number at a position of out, and answers the position behind it.
pub fn put_word(v: u16, at: usize, out: &mut [u8]) -> usize
    requires { at + 2 ≤ length out.old }
    ensures { Put out.old at (be 2 v) out.new result }
{
    out[at..at + 2].copy_from_slice(&v.to_be_bytes());
    at + 2
}

// Puts a 4-byte number at a position of out, and answers the position behind it.
pub fn put_long(v: u32, at: usize, out: &mut [u8]) -> usize
    requires { at + 4 ≤ length out.old }
    ensures { Put out.old at (be 4 v) out.new result }
{
    out[at..at + 4].copy_from_slice(&v.to_be_bytes());
    at + 4
}
