// Names on a stick: whether two are one, and what a name stands for.
#![tactic(auto)]

ghost use Rattle.std.specs.Prelude.{◌≡◌};
ghost use Rattle.stick_rules.specs.Names.{lower, equal_ignoring_case, is_inside, belongs, format_of, slip_name};
ghost use Rattle.stick_names.specs.Digest.{digest_of};

// A capital letter as a small one.
fn lower(b: u8) -> u8
    ensures { result ≡ lower b }
{
    if b < 65 {
        return b;
    }
    if 90 < b {
        return b;
    }
    b + 32
}

// Whether two names are one on a stick. The names in one folder differ towards their ends: they are compared from there.
fn equal_names(name: &[u8], other: &[u8]) -> bool
    ensures { result ≡ equal_ignoring_case name.now other.now }
{
    if name.len() != other.len() {
        return false;
    }
    for k in (0..name.len()).rev() {
        if lower(name[k]) != lower(other[k]) {
            return false;
        }
    }
    true
}

// A number that is the same for all names that are one on a stick.
pub fn digest(name: &[u8]) -> u32
    ensures { result ≡ digest_of name.now }
{
    let mut d = 0u32;
    for b in name {
        d = (251 * d + lower(*b) as u32) % 16777216;
    }
    d
}

// Whether a file of this name stands in the folder of this path, or below it.
fn is_inside(name: &[u8], path: &[u8]) -> bool
    ensures { result ≡ is_inside name.now path.now }
{
    let n = path.len();
    if name.len() <= n {
        return false;
    }
    if name[n] != b'/' {
        return false;
    }
    equal_names(&name[..n], path)
}

// Whether a name belongs to the path of a file, or of a folder.
pub fn belongs(file: bool, name: &[u8], path: &[u8]) -> bool
    ensures { result ≡ belongs file name.now path.now }
{
    if file {
        return equal_names(name, path);
    }
    is_inside(name, path)
}

// Whether a path is that of the slip.
pub fn is_slip(path: &[u8]) -> bool
    ensures { result ≡ equal_ignoring_case slip_name path.now }
{
    equal_names(b"stick.slip", path)
}

// The reader that must judge a file of this path, by number, or 0 where it is no figure. (It is a number since C hands it over
// and takes it back in the record of an item.)
pub fn format_of(path: &[u8]) -> u64
    ensures { result ≡ format_of path.now }
{
    if path.len() < 4 {
        return 0;
    }
    let ending = &path[path.len() - 4..];
    if equal_names(b".3ds", ending) {
        return 1;
    }
    if equal_names(b".cob", ending) {
        return 2;
    }
    if equal_names(b".c4d", ending) {
        return 3;
    }
    0
}
