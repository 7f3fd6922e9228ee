// Eight bytes looked at side by side, as one number: how many of them pass a test before the first that does not.
#![tactic(auto)]

ghost use Rattle.std.specs.Prelude.{◌≡◌, Bool, List, ℕ, ◌≤◌, ◌<◌, length, take};
ghost use Rattle.shared_words.specs.Bytes.{value};
ghost use Rattle.shared_words.specs.Labels.{printable};
ghost use Rattle.shared_words.specs.Lists.{first_fault};
ghost use Rattle.shared_eights.specs.Eights.{nonzero, Eight, marks};

fn wide(b: u8) -> u64
    ensures { (result ≡ b) × (result < 256) }
{
    b as u64
}

// The number of the eight bytes that a part begins with. They stand at fixed places of the part, so that it is one load.
fn first_eight(s: &[u8]) -> u64
    requires { 8 ≤ length s.now }
    ensures { Eight (take 8 s.now) result }
{
    wide(s[0])
        + 256 * wide(s[1])
        + 65536 * wide(s[2])
        + 16777216 * wide(s[3])
        + 4294967296 * wide(s[4])
        + 1099511627776 * wide(s[5])
        + 281474976710656 * wide(s[6])
        + 72057594037927936 * wide(s[7])
}

const LOW: u64 = 0x7F7F7F7F7F7F7F7F;

const HIGH: u64 = 0x8080808080808080;

// The highest bit of each byte that is below 32 or above 126. No sum of a byte goes over into the next.
fn unprintable(w: u64) -> u64
    ensures { (bs : List ℕ) → Eight bs w → result ≡ value (marks printable bs) }
{
    let low = w & LOW;
    (w | (low + 0x0101010101010101) | ((low + 0x6060606060606060) ^ HIGH)) & HIGH
}

// The highest bit of each byte that is 0.
fn zeros(w: u64) -> u64
    ensures { (bs : List ℕ) → Eight bs w → result ≡ value (marks nonzero bs) }
{
    (((w & LOW) + LOW) | w) & HIGH ^ HIGH
}

// The first byte that is marked, 8 where none is.
fn first_marked(w: u64) -> usize
    ensures { (good : ℕ → Bool) (bs : List ℕ) → length bs ≡ 8 → w ≡ value (marks good bs) → result ≡ first_fault good bs }
{
    (u64::trailing_zeros(w) / 8) as usize
}

// How many of the eight bytes that a part begins with are printable, before the first that is not.
pub fn printable_front(s: &[u8]) -> usize
    requires { 8 ≤ length s.now }
    ensures { result ≡ first_fault printable (take 8 s.now) }
{
    first_marked(unprintable(first_eight(s)))
}

// How many of them are not 0, before the first that is.
pub fn nonzero_front(s: &[u8]) -> usize
    requires { 8 ≤ length s.now }
    ensures { result ≡ first_fault nonzero (take 8 s.now) }
{
    first_marked(zeros(first_eight(s)))
}
