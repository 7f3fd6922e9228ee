// The name of one mesh's object in a file, its box and centre. Each call answers for every file and every number.
#![tactic(auto)]

ghost use Rattle.std.specs.Prelude.{◌≡◌};
ghost use Rattle.studio_rules.specs.Calls.{name_call, box_call};
ghost use Rattle.studio_rules.specs.Within.{NameWithin, BoxNumbers};

use shared_words::Refusal;
use studio_mesh_asked::ask;
use studio_rules::{Boxed, Span};

// Where the name of a mesh's object stands in the file.
pub fn name(file: &[u8], mesh: u32) -> Result<Span, Refusal>
    ensures answer { result ≡ name_call file.now mesh }
    ensures within { NameWithin result }
{
    let place = ask(file, mesh)?;
    Ok(Span {
        offset: place.name,
        size: place.size,
    })
}

// The box around a mesh's vertices, and its centre.
pub fn bounding_box(file: &[u8], mesh: u32) -> Result<Boxed, Refusal>
    ensures answer { result ≡ box_call file.now mesh }
    ensures numbers { BoxNumbers result }
{
    let place = ask(file, mesh)?;
    let n = place.vertices.count;
    if n == 0 {
        return Err(Refusal::Empty);
    }
    let around = studio_mesh_box::box_of(file, place.vertices.at, n);
    Ok(Boxed {
        around,
        centre: studio_mesh_box::centre_of(around),
    })
}
