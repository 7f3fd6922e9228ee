// The rescue of a damaged figure into two lent rows: all is judged and counted, and then the cuts and the mended file are put. The
// file itself is read only.
#![tactic(auto)]

ghost use Rattle.std.specs.Prelude.{◌≡◌, ◌+◌, ◌-◌, ◌<◌, ◌≤◌, length};
ghost use Rattle.std.proofs.Math.Seq.{slice};
ghost use Rattle.shared_numbers.specs.Put.{Put};
ghost use Rattle.studio_rescue_rules.specs.Rescue.{sift};
ghost use Rattle.studio_rescue_rules.specs.Call.{cut_bytes, rescue_call};
ghost use Rattle.studio_rescue.specs.Parts.{front_of, Ready, PutIs, rescue_rows};

use shared_copy::put_part;
use shared_numbers::put_long;
use shared_words::Refusal;
use studio_rescue_rules::Mended;

// What stands before the children of 3D3D, which stands at at: all as it was but the two lengths. Answers the position behind it.
fn put_front(file: &[u8], at: usize, size: usize, len: usize, out: &mut [u8]) -> usize
    requires { (6 ≤ at) × (at + 6 ≤ length file.now) × (at + 6 ≤ length out.old) × (size < 4294967296) × (len < 4294967296) }
    ensures is { Put out.old 0 (front_of file.now at size len) out.new result }
    ensures ends { result ≡ at + 6 }
{
    let sized = put_part(file, 0, 2, 0, out);
    let children = put_long(size as u32, sized, out);
    let scene = put_part(file, 6, at - 4, children, out);
    put_long(len as u32, scene, out)
}

// The mended file and the cuts, where 3D3D stands from at to stop and so many bytes of it go.
fn put_file(
    file: &[u8],
    table: &[u64; 128],
    version: u32,
    at: usize,
    stop: usize,
    gone: usize,
    cuts: &mut [u8],
    out: &mut [u8],
)
    requires { Ready file.now table.now version at stop gone (length cuts.old) (length out.old) }
    ensures { PutIs file.now at stop gone (sift version (at + 6) (slice (at + 6) stop file.now)) cuts.old
        cuts.new out.old out.new }
{
    let size = file.len();
    let children = put_front(file, at, size - gone, stop - at - gone, out);
    let next = studio_rescue_sift::fill(file, table, version, at + 6, stop, cuts, children, out);
    put_part(file, stop, size - stop, next, out);
}

// The rescue of a file: each child of 3D3D that fails is cut, and the rest written. Answers how many cuts there are and how many
// bytes the mended file has, or the refusal; a refusal leaves both rows as they were.
pub fn rescue(file: &[u8], cuts: &mut [u8], out: &mut [u8]) -> Result<Mended, Refusal>
    ensures answer { result ≡ (rescue_call cut_bytes file.now (rescue_rows cuts.old out.old)).answer }
    ensures rows { rescue_rows cuts.new out.new ≡
        (rescue_call cut_bytes file.now (rescue_rows cuts.old out.old)).rows }
{
    let scene = studio_rescue_around::around(file)?;
    let version = studio_version::version(file);
    let slots = studio_lookup::slots();
    let lost = studio_rescue_sift::count(file, &slots, version, scene.at + 6, scene.stop);
    if cuts.len() / 12 < lost.count {
        return Err(Refusal::NoRoom(lost.count));
    }
    let size = file.len() - lost.gone;
    if out.len() < size {
        return Err(Refusal::NoRoom(size));
    }
    put_file(
        file, &slots, version, scene.at, scene.stop, lost.gone, cuts, out,
    );
    Ok(Mended {
        cuts: lost.count,
        size,
    })
}
