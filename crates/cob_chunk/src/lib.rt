// One chunk of a file: its kind, and what its size and its body are judged.
#![tactic(auto)]

ghost use Rattle.std.specs.Prelude.{◌≡◌, true, ◌&&◌, ◌+◌, ◌≤◌, eqb, length};
ghost use Rattle.cob_rules.specs.Kinds.{is_end, is_mesh, listed, tells_end, parts};
ghost use Rattle.cob_rules.specs.Body.{behind_all, exact, up_to};
ghost use Rattle.cob_rules.specs.Layout.{kind, size};
ghost use Rattle.cob_chunk.specs.Chunks.{chunk_in, kind_by, Stated, of_mesh, parts_judged, body_judged, judged_of};

use cob_body::body_end;
use cob_mesh::judge;
use cob_rules::Kind;
use shared_numbers::long_at;

// ---- kinds

// The kind of four letters and a version, each as a number: "END " 1.0, "Grou" 0.01, "PolH" 0.02, "Mat1" 0.05.
fn kind_of(letters: u32, version: u32) -> Kind
    ensures { result ≡ kind_by letters version }
{
    match (letters, version) {
        (0x2044_4E45, 0x1) => Kind::End,
        (0x756F_7247, 0x1_0000) => Kind::Grou,
        (0x486C_6F50, 0x2_0000) => Kind::PolH,
        (0x3174_614D, 0x5_0000) => Kind::Mat1,
        _ => Kind::Other,
    }
}

// The kind of the chunk at an offset.
pub fn kind_at(file: &[u8], at: usize) -> Kind
    requires { at + 20 ≤ length file.now }
    ensures { result ≡ kind (chunk_in file.now at) }
{
    kind_of(long_at(file, at), long_at(file, at + 4))
}

// Whether it is END, after which the file ends.
pub fn is_end(k: Kind) -> bool
    ensures { result ≡ is_end k }
{
    matches!(k, Kind::End)
}

// Whether it is a PolH.
pub fn is_mesh(k: Kind) -> bool
    ensures { result ≡ is_mesh k }
{
    matches!(k, Kind::PolH)
}

// Whether it is one of the four types, and so in the list.
pub fn is_listed(k: Kind) -> bool
    ensures { result ≡ listed k }
{
    !matches!(k, Kind::Other)
}

// Whether a body of its kind may tell its own end.
fn tells_end(k: Kind) -> bool
    ensures { result ≡ tells_end k }
{
    matches!(k, Kind::End | Kind::Grou | Kind::PolH)
}

// ---- the body

// Refusal 22, 10, 11 or 12, whichever is due first.
#[derive(Clone, Copy, Debug, PartialEq, Eq)]
pub enum Fault {
    Size,
    Length,
    Number,
    Index,
}

impl From<cob_mesh::Fault> for Fault {
    ghost from_gives = { λ e f. f ≡ of_mesh e };

    fn from(e: cob_mesh::Fault) -> Fault {
        match e {
            cob_mesh::Fault::Number => Fault::Number,
            cob_mesh::Fault::Index => Fault::Index,
        }
    }
}

// A body that fits its parts exactly: its length.
fn judge_parts(k: Kind, body: &[u8]) -> Result<usize, Fault>
    requires { exact k body.now ≡ true }
    ensures { result ≡ parts_judged k body.now }
{
    if is_mesh(k) {
        judge(body)?;
    }
    Ok(body.len())
}

// A body of a stated size.
fn judge_stated(k: Kind, body: &[u8]) -> Result<usize, Fault>
    ensures { result ≡ body_judged k body.now }
{
    if body_end(k, body) != Some(body.len()) {
        return Err(Fault::Length);
    }
    judge_parts(k, body)
}

// A body that tells its own end, in the rest of the file.
fn judge_told(k: Kind, rest: &[u8]) -> Result<usize, Fault>
    requires { tells_end k ≡ true }
    ensures { result ≡ body_judged k (up_to rest.now (behind_all (parts k) rest.now)) }
{
    let n = body_end(k, rest).ok_or(Fault::Length)?;
    judge_parts(k, &rest[..n])
}

// The chunk at an offset, whose header and stated size are within the file: the length of its body.
pub fn judge_chunk(file: &[u8], at: usize) -> Result<usize, Fault>
    requires { Stated file.now at }
    ensures { result ≡ judged_of (chunk_in file.now at) }
{
    let k = kind_at(file, at);
    let size = long_at(file, at + 16);
    let start = at + 20;
    if size < 0x8000_0000 {
        let end = start + size as usize;
        return judge_stated(k, &file[start..end]);
    }
    if size != 0xFFFF_FFFF {
        return Err(Fault::Size);
    }
    if !tells_end(k) {
        return Err(Fault::Size);
    }
    judge_told(k, &file[start..])
}

// The offset behind the chunk at an offset.
pub fn chunk_end(file: &[u8], at: usize) -> usize
    requires { Stated file.now at }
    ensures { result ≡ at + size (chunk_in file.now at) }
{
    let stated = long_at(file, at + 16);
    let start = at + 20;
    if stated < 0x8000_0000 {
        return start + stated as usize;
    }
    match body_end(kind_at(file, at), &file[start..]) {
        Some(n) => start + n,
        None => file.len(),
    }
}
