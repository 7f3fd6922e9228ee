// What stands around the children of 3D3D in a damaged figure: the first fault there, or where 3D3D stands.
#![tactic(auto)]

ghost use Rattle.std.specs.Prelude.{◌≡◌, [], ◌+◌, ◌<◌, ◌≤◌, length, drop};
ghost use Rattle.studio_rules.specs.Walk.{top, ended};
ghost use Rattle.studio_rescue_rules.specs.Rescue.{mend, mended};
ghost use Rattle.studio_rescue_around.specs.Around.{ahead, outside_of};
ghost use Rattle.studio_rescue_around.specs.Before.{Before};

use shared_numbers::{long_at, word_at};
use shared_words::Refusal;
use studio_lookup::FIGURE;

// Where 3D3D begins and ends.
#[derive(Clone, Copy)]
pub struct Scene {
    pub at: usize,
    pub stop: usize,
}

// Where the first 3D3D stands among the children of 4D4D. They are stepped over by their lengths up to the first bad header;
// where none is found it is the end of the file.
fn scene_at(file: &[u8]) -> usize
    requires { 6 ≤ length file.now }
    ensures { result ≡ 6 + ahead 6 (drop 6 file.now) }
{
    let end = file.len();
    let mut at = 6usize;
    // a `while`: each chunk's length tells where the next begins
    while at < end {
        let left = end - at;
        if left < 6 {
            return end;
        }
        let len = long_at(file, at + 2) as usize;
        if len < 6 {
            return end;
        }
        if left < len {
            return end;
        }
        if word_at(file, at) == 0x3D3D {
            return at;
        }
        at += len;
    }
    at
}

// The children of 4D4D behind 3D3D, which stands at at; those before it left the marks.
fn judge_behind(
    file: &[u8],
    table: &[u64; 128],
    version: u32,
    at: usize,
    marks: &mut [u32],
) -> Result<Scene, Refusal>
    requires { Before file.now table.now version at marks.old × (at < length file.now) }
    ensures { result ≡ outside_of file.now (ended (top version) 0 (mend version [] 6 (drop 6 file.now))) }
{
    let stop = at + long_at(file, at + 2) as usize;
    let row = studio_lookup::row(table, 0x3D3D);
    studio_marks::note(marks, row, at);
    studio_walk::run(
        file,
        table,
        FIGURE,
        0,
        3 <= version,
        stop,
        file.len(),
        marks,
    )?;
    Ok(Scene { at, stop })
}

// The children of 4D4D but 3D3D, which stands at at, in a file of a version.
fn judge_children(file: &[u8], version: u32, at: usize) -> Result<Scene, Refusal>
    requires { (6 ≤ length file.now) × (length file.now ≤ 1048576) × (at ≡ 6 + ahead 6 (drop 6 file.now)) }
    ensures { result ≡ outside_of file.now (ended (top version) 0 (mend version [] 6 (drop 6 file.now))) }
{
    let slots = studio_lookup::slots();
    let mut marks = [0u32; 6];
    studio_walk::run(file, &slots, FIGURE, 0, 3 <= version, 6, at, &mut marks)?;
    if at == file.len() {
        return Err(Refusal::Missing(0));
    }
    judge_behind(file, &slots, version, at, &mut marks)
}

// The first fault outside the children of 3D3D, which nothing mends, or where it stands.
pub fn around(file: &[u8]) -> Result<Scene, Refusal>
    ensures { result ≡ outside_of file.now (mended file.now) }
{
    studio_check::judge_file(file)?;
    judge_children(file, studio_version::version(file), scene_at(file))
}
