// The version of the library as one number, for C. CHANGELOG.md says what came with each; include/tds.h has the same numbers.
#![tactic(auto)]

ghost use Rattle.std.specs.Prelude.{◌≡◌};
ghost use Rattle.c_version.specs.Version.{version};

// Grows where a program that was built for an older library must be built again.
const MAJOR: u64 = 2;

// Grows where there is more than before, and all that was there is as it was.
const MINOR: u64 = 8;

// Grows where nothing changes that a program can ask for.
const PATCH: u64 = 0;

// The version.
pub fn version() -> u64
    ensures { result ≡ version }
{
    65536 * MAJOR + 256 * MINOR + PATCH
}
