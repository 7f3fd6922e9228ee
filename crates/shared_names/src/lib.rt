// Names compared: four bytes at a time, then byte by byte. So long names that begin alike do not take long.
#![tactic(auto)]

ghost use Rattle.std.specs.Prelude.{◌≡◌, ◌+◌, ◌≤◌, length, take, drop};
ghost use Rattle.shared_words.specs.Lists.{same};
ghost use Rattle.shared_names.specs.Alike.{BlocksAlike};

use shared_numbers::long_at;

// Whether the first bytes of two names of one length are the same, four at a time: all but the last three or fewer. (`==` of slices
// looks at up to 64 bytes before it leaves, where the first four are the same.)
fn same_blocks(x: &[u8], y: &[u8]) -> bool
    requires { length x.now ≡ length y.now }
    ensures { BlocksAlike x.now y.now result }
{
    for k in 0..x.len() / 4 {
        if long_at(x, 4 * k) != long_at(y, 4 * k) {
            return false;
        }
    }
    true
}

// Whether two names are the same.
pub fn same_bytes(x: &[u8], y: &[u8]) -> bool
    ensures { result ≡ same x.now y.now }
{
    if x.len() != y.len() {
        return false;
    }
    if !same_blocks(x, y) {
        return false;
    }
    for i in x.len() / 4 * 4..x.len() {
        if x[i] != y[i] {
            return false;
        }
    }
    true
}

// Whether two names, of m and n bytes at two places of a slice, are the same.
pub fn same_name(s: &[u8], a: usize, m: usize, b: usize, n: usize) -> bool
    requires { (a + m ≤ length s.now) × (b + n ≤ length s.now) }
    ensures { result ≡ same (take m (drop a s.now)) (take n (drop b s.now)) }
{
    same_bytes(&s[a..a + m], &s[b..b + n])
}
