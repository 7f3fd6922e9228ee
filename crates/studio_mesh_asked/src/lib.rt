// What all calls about one mesh begin with: the file is checked, the mesh is found, and its tables have room.
#![tactic(auto)]

ghost use Rattle.std.specs.Prelude.{◌≡◌, cond, Ok, Err};
ghost use Rattle.shared_words.specs.declared.Refusal.TheVariants.{NoRoom};
ghost use Rattle.studio_mesh_asked.specs.Choices.{yes, room_for, fitting, AskedIs};

use shared_words::Refusal;
use studio_mesh_find::Place;

// The mesh of a number, in a file that is checked first: where it stands; or the refusal of the file, or of the number.
pub fn ask(file: &[u8], mesh: u32) -> Result<Place, Refusal>
    ensures { AskedIs file.now yes mesh result }
{
    studio_check::check(file)?;
    studio_mesh_find::find_mesh(file, mesh as usize)
}

// Refuses n numbers where room for fewer is lent. A table that is not asked for lends none, and needs none.
fn need_room(lent: Option<usize>, n: usize) -> Result<(), Refusal>
    ensures { result ≡ cond (room_for lent n) (Ok tt) (Err (NoRoom n)) }
{
    match lent {
        Some(k) => {
            if k < n {
                return Err(Refusal::NoRoom(n));
            }
            Ok(())
        }
        None => Ok(()),
    }
}

// The same, of a mesh for whose tables there is room. If several have too little, the vertices are spoken of first, and the
// mapping last.
pub fn ask_with_room(
    file: &[u8],
    mesh: u32,
    vertices: Option<usize>,
    corners: Option<usize>,
    mapping: Option<usize>,
) -> Result<Place, Refusal>
    ensures { AskedIs file.now (fitting vertices corners mapping) mesh result }
{
    let place = ask(file, mesh)?;
    need_room(vertices, 3 * place.vertices.count)?;
    need_room(corners, 3 * place.faces.count)?;
    need_room(mapping, 2 * place.mapping.pairs)?;
    Ok(place)
}
