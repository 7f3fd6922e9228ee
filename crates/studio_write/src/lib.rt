// The writer of a bare figure. All is judged before the first byte is written.
#![tactic(auto)]

ghost use Rattle.std.specs.Prelude.{◌≡◌};
ghost use Rattle.studio_write.specs.Write.{write_call};

use shared_words::Refusal;
use studio_write_bytes::put_figure;
use studio_write_judge::judge;

// Writes a bare figure into the front of out: a name without its zero, a row of floats, three to a vertex, and a row of
// corners, three to a face. A refusal leaves out untouched, and bytes after the size stay.
pub fn write(
    name: &[u8],
    vertices: &[f32],
    corners: &[u16],
    out: &mut [u8],
) -> Result<usize, Refusal>
    ensures answer { result ≡ (write_call name.now vertices.now corners.now out.old).answer }
    ensures out { out.new ≡ (write_call name.now vertices.now corners.now out.old).rows }
{
    let size = judge(name, vertices, corners, out.len())?;
    Ok(put_figure(name, vertices, corners, size, out))
}
