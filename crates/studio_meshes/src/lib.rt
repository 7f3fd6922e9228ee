// All meshes of a figure in one call: eight numbers each, or the nine of its box, into a lent row of bytes. The file is checked first,
// and nothing is written before room for all meshes is there. Linear in the file: the check, and two passes over the objects; for the
// boxes, one over all vertices.
#![tactic(auto)]

ghost use Rattle.std.specs.Prelude.{◌≡◌, refl, List, [], ◌∷◌, ◌++◌, ℕ, ◌+◌, ◌/◌, ◌≤◌, ◌<◌, ◌^◌, length};
ghost use Rattle.shared_words.specs.Bytes.{packed};
ghost use Rattle.shared_words.specs.Effects.{filled};
ghost use Rattle.shared_numbers.specs.Put.{Put};
ghost use Rattle.studio_rules.specs.Layout.{Run, known};
ghost use Rattle.studio_rules.specs.Rules.{Parent};
ghost use Rattle.studio_meshes_rules.specs.Standing.{Standing, mesh_in, standing, mesh_numbers};
ghost use Rattle.studio_meshes_rules.specs.Calls.{mesh_bytes, meshes_call};
ghost use Rattle.studio_meshes_rules.specs.Boxes.{box_bytes, boxes_call};
ghost use Rattle.studio_child.specs.Runs.{Spans};
ghost use Rattle.studio_mesh_find.specs.Runs.{ObjectsAt};
ghost use Rattle.studio_mesh_find.specs.Places.{place_numbers, ObjectIs, PlaceIs};
ghost use Rattle.studio_meshes.specs.Wanted.{numbers_of, boxes_of};
ghost use Rattle.studio_meshes.specs.Laws.{numbers_append, boxes_append};
ghost use Rattle.studio_meshes.specs.Fit.{Small, held_in, Placed, RoomFor, SomeObjectsAt, Room, SomeRoom};
ghost use Rattle.studio_meshes.specs.Asked.{AskedIs};

use shared_numbers::put_long;
use shared_words::Refusal;
use studio_box_row::put_box;
use studio_child::next_child;
use studio_mesh_find::{Between, Elements, Object, Place, find_objects, object_at, place_of};

// How many elements there are and where they begin, at a position; answers the position behind the two numbers.
fn put_elements(elements: Elements, at: usize, row: &mut [u8]) -> usize
    requires { (elements.count < 2 ^ 32) × (elements.at < 2 ^ 32) × (at + 8 ≤ length row.old) }
    ensures { Put row.old at (packed 4 (elements.count ∷ elements.at ∷ [])) row.new result }
{
    let behind = put_long(elements.count as u32, at, row);
    put_long(elements.at as u32, behind, row)
}

// The eight numbers of a mesh at a position; answers the position behind them.
fn put_place(place: Place, at: usize, row: &mut [u8]) -> usize
    requires { Small (place_numbers place) × (at + 32 ≤ length row.old) }
    ensures { Put row.old at (packed 4 (place_numbers place)) row.new result }
{
    let size = put_long(place.name as u32, at, row);
    let vertices = put_long(place.size as u32, size, row);
    let faces = put_elements(place.vertices, vertices, row);
    let pairs = put_elements(place.faces, faces, row);
    let given = Elements {
        at: place.mapping.at,
        count: place.mapping.count,
    };
    put_elements(given, pairs, row)
}

// What is wanted of each mesh: how it stands in a row of bytes, and the step that puts it there.
trait Wanted {
    ghost bytes: { List Standing → List ℕ };

    // What is wanted of a mesh, at a position of the row; answers the position behind it.
    fn put(file: &[u8], place: Place, at: usize, row: &mut [u8]) -> usize
        requires { Placed file.now place bytes at (length row.old) }
        ensures { (m : Standing) → PlaceIs file.now (mesh_in m) place → place_numbers place ≡ mesh_numbers m →
            Put row.old at (bytes (m ∷ [])) row.new result };

    // Meshes stand one behind another.
    ghost none: { bytes [] ≡ [] };

    ghost more: { (ms ns : List Standing) → bytes (ms ++ ns) ≡ bytes ms ++ bytes ns };
}

// The eight numbers of each mesh.
struct Numbers;

impl Wanted for Numbers {
    ghost bytes = { numbers_of };

    ghost none = { refl };

    ghost more = { numbers_append };

    fn put(_file: &[u8], place: Place, at: usize, row: &mut [u8]) -> usize {
        put_place(place, at, row)
    }
}

// The nine numbers of the box of each mesh.
struct Boxes;

impl Wanted for Boxes {
    ghost bytes = { boxes_of };

    ghost none = { refl };

    ghost more = { boxes_append };

    fn put(file: &[u8], place: Place, at: usize, row: &mut [u8]) -> usize {
        put_box(file, place.vertices.at, place.vertices.count, at, row)
    }
}

// The mesh in the object at a position of the file, if it has one, at a position of the row; answers the position behind it.
fn put_held<W: Wanted>(file: &[u8], at: usize, object: Object, next: usize, row: &mut [u8]) -> usize
    requires { RoomFor file.now at object W.bytes next (length row.old) }
    ensures { (p : Parent) (own : List ℕ) (kids rest : Run) (stop : ℕ) → Spans p (known 0x4000 own kids rest) file.now at stop →
        ObjectIs at own kids object → Put row.old next (W.bytes (held_in at own kids)) row.new result }
{
    if object.mesh < object.stop {
        let place = place_of(file, object.mesh, at + 6, object.size);
        return W::put(file, place, next, row);
    }
    next
}

// How many meshes there are in the objects of a figure.
fn count_meshes(file: &[u8], objects: Between) -> usize
    requires { SomeObjectsAt file.now objects.from objects.stop }
    ensures { (kids : Run) → ObjectsAt file.now kids objects.from objects.stop → result ≡ length (standing kids) }
{
    let mut n = 0usize;
    let mut at = next_child(file, 0x4000, objects.from, objects.stop);
    // a `while`: each object tells where the next is looked for
    while at < objects.stop {
        let object = object_at(file, at);
        if object.mesh < object.stop {
            n += 1;
        }
        at = next_child(file, 0x4000, object.stop, objects.stop);
    }
    n
}

// What is wanted of the meshes in the objects of a figure, at the front of a row.
fn fill<W: Wanted>(file: &[u8], objects: Between, row: &mut [u8])
    requires { SomeRoom file.now objects.from objects.stop W.bytes (length row.old) }
    ensures { (kids : Run) → Room file.now kids objects.from objects.stop W.bytes (length row.old) →
        row.new ≡ filled (W.bytes (standing kids)) row.old }
{
    let mut next = 0usize;
    let mut at = next_child(file, 0x4000, objects.from, objects.stop);
    // a `while`: each object tells where the next is looked for
    while at < objects.stop {
        let object = object_at(file, at);
        next = put_held::<W>(file, at, object, next, row);
        at = next_child(file, 0x4000, object.stop, objects.stop);
    }
}

// Where the objects stand and how many meshes there are in them.
#[derive(Clone, Copy)]
struct Counted {
    objects: Between,
    count: usize,
}

// The meshes of a file that is checked first, where there is room for so many; or the refusal of the file, or of the room.
fn ask(file: &[u8], room: usize) -> Result<Counted, Refusal>
    ensures { AskedIs file.now room result }
{
    studio_check::check(file)?;
    let objects = find_objects(file);
    let count = count_meshes(file, objects);
    if room < count {
        return Err(Refusal::NoRoom(count));
    }
    Ok(Counted { objects, count })
}

// The meshes of a figure, in file order, eight numbers each, four bytes a number. Answers how many there are, or the refusal; a
// refusal leaves the row as it was.
pub fn meshes_bytes(file: &[u8], row: &mut [u8]) -> Result<usize, Refusal>
    ensures answer { result ≡ (meshes_call mesh_bytes file.now row.old).answer }
    ensures filled { row.new ≡ (meshes_call mesh_bytes file.now row.old).rows }
{
    let meshes = ask(file, row.len() / 32)?;
    fill::<Numbers>(file, meshes.objects, row);
    Ok(meshes.count)
}

// The boxes of the meshes of a figure and their centres, in file order, nine floats each; nine zeros for a mesh without vertices.
// Answers how many meshes there are, or the refusal; a refusal leaves the row as it was.
pub fn boxes_bytes(file: &[u8], row: &mut [u8]) -> Result<usize, Refusal>
    ensures answer { result ≡ (boxes_call box_bytes file.now row.old).answer }
    ensures filled { row.new ≡ (boxes_call box_bytes file.now row.old).rows }
{
    let meshes = ask(file, row.len() / 36)?;
    fill::<Boxes>(file, meshes.objects, row);
    Ok(meshes.count)
}
