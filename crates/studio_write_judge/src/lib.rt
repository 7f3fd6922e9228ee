// Whether a bare figure can be written: the first fault of what is given, or the size of the file.
#![tactic(auto)]

ghost use Rattle.std.specs.Prelude.{◌≡◌, ltb};
ghost use Rattle.shared_words.specs.Lists.{every, first_fault};
ghost use Rattle.shared_words.specs.Labels.{label_fault};
ghost use Rattle.studio_write_judge.specs.Judged.{not_zero, is_whole_row, finite_float, judged};

use shared_words::Refusal;

// The longest file, and the longest row: three numbers for each of 65,535 vertices or faces.
const LIMIT: usize = 1048576;

const LONGEST_ROW: usize = 196605;

// The position of the first zero byte; where there is none, the length.
pub fn first_zero(name: &[u8]) -> usize
    ensures { result ≡ first_fault not_zero name.now }
{
    name.iter().position(|b| *b == 0).unwrap_or(name.len())
}

// How many bytes of a name a label takes: where it does not fit, the position of its fault.
fn label_size(name: &[u8]) -> usize
    ensures { result ≡ label_fault name.now }
{
    shared_labels::label_size(name, 0, name.len())
}

// Whether a row of this length is made of whole vertices or faces, and not of too many.
pub fn whole_row(n: usize) -> bool
    ensures { result ≡ is_whole_row n }
{
    n % 3 == 0 && n <= LONGEST_ROW
}

// Whether all floats are finite. The loop branches on nothing that it reads, and becomes vector code;
// `all` would stop at the first.
pub fn all_finite(vertices: &[f32]) -> bool
    ensures { result ≡ every finite_float vertices.now }
{
    let mut good = true;
    for x in vertices {
        if !x.is_finite() {
            good = false;
        }
    }
    good
}

// Whether all corners are below n. The two are as wide as each other, so that vector code compares eight at a time.
pub fn all_below(n: u16, corners: &[u16]) -> bool
    ensures { result ≡ every (λ c. ltb c n) corners.now }
{
    let mut good = true;
    for corner in corners {
        if n <= *corner {
            good = false;
        }
    }
    good
}

// The position of the first float that is not finite; where there is none, the length.
pub fn first_not_finite(vertices: &[f32]) -> usize
    ensures { result ≡ first_fault finite_float vertices.now }
{
    vertices
        .iter()
        .position(|x| !x.is_finite())
        .unwrap_or(vertices.len())
}

// The position of the first corner that is not below n; where there is none, the length.
pub fn first_not_below(n: usize, corners: &[u16]) -> usize
    ensures { result ≡ first_fault (λ c. ltb c n) corners.now }
{
    corners
        .iter()
        .position(|corner| n <= *corner as usize)
        .unwrap_or(corners.len())
}

// The answer for a buffer of `room` bytes: the first fault in the papers' order, or the size.
pub fn judge(name: &[u8], vertices: &[f32], corners: &[u16], room: usize) -> Result<usize, Refusal>
    ensures { result ≡ judged name.now vertices.now corners.now room }
{
    let zero = first_zero(name);
    if zero < name.len() {
        return Err(Refusal::Name(zero));
    }
    let taken = label_size(name);
    if taken < name.len() {
        return Err(Refusal::Text(taken));
    }
    if !whole_row(vertices.len()) {
        return Err(Refusal::Count(vertices.len()));
    }
    if !whole_row(corners.len()) {
        return Err(Refusal::Count(corners.len()));
    }
    if !all_finite(vertices) {
        return Err(Refusal::Number(first_not_finite(vertices)));
    }
    let n = vertices.len() / 3;
    if !all_below(n as u16, corners) {
        return Err(Refusal::Index(first_not_below(n, corners)));
    }
    let size = 41 + name.len() + 12 * n + 8 * (corners.len() / 3);
    if LIMIT < size {
        return Err(Refusal::TooLong);
    }
    if room < size {
        return Err(Refusal::NoRoom(size));
    }
    Ok(size)
}
