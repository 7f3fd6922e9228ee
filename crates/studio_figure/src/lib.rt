// The writer of figures with many objects and materials. All is judged before the first byte is written.
#![tactic(auto)]

ghost use Rattle.std.specs.Prelude.{◌≡◌};
ghost use Rattle.studio_figure_rules.specs.Described.{write_flat};
ghost use Rattle.studio_figure_rows.specs.Given.{given};

use shared_words::Refusal;
use studio_figure_bytes::put_figure;
use studio_figure_judge::judge_figure;
use studio_figure_rows::FlatRows;

// Writes the figure that flat rows give into the front of out. A refusal leaves out untouched, and bytes after the size stay.
pub fn write_figure(rows: &FlatRows, out: &mut [u8]) -> Result<usize, Refusal>
    ensures answer { result ≡ (write_flat (given rows.now) out.old).answer }
    ensures out { out.new ≡ (write_flat (given rows.now) out.old).rows }
{
    let size = judge_figure(rows, out.len())?;
    put_figure(rows, size, out);
    Ok(size)
}
