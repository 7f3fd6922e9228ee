// The version of a file, by its bytes: accepted or not, it decides how many mapping pairs a mesh may have.
#![tactic(auto)]

ghost use Rattle.std.specs.Prelude.{◌≡◌, drop};
ghost use Rattle.studio_rules.specs.Walk.{version_in};

use shared_numbers::{long_at, word_at};

// The version that the first 0002 of length 10 among the children of 4D4D tells. They are stepped over by their lengths up to
// the first bad header; where none is told it is 0.
pub fn version(file: &[u8]) -> u32
    ensures { result ≡ version_in (drop 6 file.now) }
{
    let end = file.len();
    let mut at = 6usize;
    // a `while`: each chunk's length tells where the next begins
    while at < end {
        let left = end - at;
        if left < 6 {
            return 0;
        }
        let len = long_at(file, at + 2) as usize;
        if len < 6 {
            return 0;
        }
        if left < len {
            return 0;
        }
        if len == 10 && word_at(file, at) == 0x0002 {
            return long_at(file, at + 6);
        }
        at += len;
    }
    0
}
