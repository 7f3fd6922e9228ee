// Where a mesh stands in an accepted file. A 4100 stands only in a 4000, which stands only in the one 3D3D of 4D4D: so
// nothing else is looked into, and siblings are passed over by their lengths.
#![tactic(auto)]

ghost use Rattle.std.specs.Prelude.{◌≡◌, true, List, map, ℕ, ◌+◌, length};
ghost use Rattle.studio_rules.specs.Table.{listed, shape, counted};
ghost use Rattle.studio_rules.specs.OwnData.{count};
ghost use Rattle.studio_rules.specs.Layout.{Run, known, child};
ghost use Rattle.studio_rules.specs.Rules.{Parent, Meets};
ghost use Rattle.studio_rules.specs.Gives.{mesh_of, meshes};
ghost use Rattle.studio_meshes_rules.specs.Standing.{mesh_in, standing_of, elements_at, mesh_numbers};
ghost use Rattle.studio_child.specs.Runs.{Spans, SomeRun, Begins, Accepted};
ghost use Rattle.studio_mesh_find.specs.Runs.{SomeObjects, IsCounted, ObjectsAt};
ghost use Rattle.studio_mesh_find.specs.Places.{ElementsAre, MappingIs, ObjectIs, PlaceIs, place_numbers, FoundIs};

use shared_numbers::{long_at, word_at};
use shared_words::Refusal;
use studio_child::next_child;

// The elements of counted own data: where they begin, and how many there are.
#[derive(Clone, Copy)]
pub struct Elements {
    pub at: usize,
    pub count: usize,
}

// An object: the length of its name without the zero, where its mesh stands, and where it ends. A mesh at the end is
// none.
#[derive(Clone, Copy)]
pub struct Object {
    pub size: usize,
    pub mesh: usize,
    pub stop: usize,
}

// The mapping of a mesh: where the pairs that the file has begin, how many they are, and how many there are with the missing
// ones.
#[derive(Clone, Copy)]
pub struct Mapping {
    pub at: usize,
    pub count: usize,
    pub pairs: usize,
}

// A mesh: where the name of its object stands, its length without the zero, its vertices, its faces and its mapping.
#[derive(Clone, Copy)]
pub struct Place {
    pub name: usize,
    pub size: usize,
    pub vertices: Elements,
    pub faces: Elements,
    pub mapping: Mapping,
}

// Where the objects of a figure stand, with what else is between and behind them.
#[derive(Clone, Copy)]
pub struct Between {
    pub from: usize,
    pub stop: usize,
}

// The elements of the first chunk of an identifier among those from at to stop; none, where there is no such chunk.
fn elements_of(file: &[u8], id: u32, at: usize, stop: usize) -> Elements
    requires { (listed id ≡ true) × IsCounted id × SomeRun file.now at stop }
    ensures are { (p : Parent) (t : Run) (k : ℕ) → shape id ≡ counted k → Spans p t file.now at stop →
        ElementsAre k (child id t) file.now result }
    ensures begin { (p : Parent) (t : Run) → Spans p t file.now at stop → result.at ≡ elements_at id at t }
{
    let o = next_child(file, id, at, stop);
    if o < stop {
        return Elements {
            at: o + 8,
            count: word_at(file, o + 6) as usize,
        };
    }
    Elements { at: 0, count: 0 }
}

// The mapping of a mesh of n vertices, among whose children from at to stop a 4140 stands or none.
fn mapping_of(file: &[u8], at: usize, stop: usize, n: usize) -> Mapping
    requires { SomeRun file.now at stop }
    ensures is { (p : Parent) (t : Run) → n ≡ count (child 0x4110 t) → Spans p t file.now at stop → MappingIs t file.now result }
    ensures begins { (p : Parent) (t : Run) → Spans p t file.now at stop → result.at ≡ elements_at 0x4140 at t }
{
    let o = next_child(file, 0x4140, at, stop);
    if o < stop {
        return Mapping {
            at: o + 8,
            count: word_at(file, o + 6) as usize,
            pairs: n,
        };
    }
    Mapping {
        at: 0,
        count: 0,
        pairs: 0,
    }
}

// The mesh whose 4100 stands at a position, in an object whose name has so many bytes at another.
pub fn place_of(file: &[u8], at: usize, name: usize, size: usize) -> Place
    requires { Begins 0x4100 file.now at }
    ensures is { (p : Parent) (own : List ℕ) (kids rest : Run) (stop : ℕ) → Spans p (known 0x4100 own kids rest) file.now at stop →
        PlaceIs file.now (mesh_of name size kids) result }
    ensures numbers { (p : Parent) (own : List ℕ) (kids rest : Run) (stop : ℕ) → Spans p (known 0x4100 own kids rest) file.now at stop →
        place_numbers result ≡ mesh_numbers record { name_at = name; name_length = size; at = at + (6 + length own); kids = kids } }
{
    let stop = at + long_at(file, at + 2) as usize;
    let vertices = elements_of(file, 0x4110, at + 6, stop);
    let faces = elements_of(file, 0x4120, at + 6, stop);
    let mapping = mapping_of(file, at + 6, stop, vertices.count);
    Place {
        name,
        size,
        vertices,
        faces,
        mapping,
    }
}

// The object whose 4000 stands at a position.
pub fn object_at(file: &[u8], at: usize) -> Object
    requires { Begins 0x4000 file.now at }
    ensures { (p : Parent) (own : List ℕ) (kids rest : Run) (stop : ℕ) → Spans p (known 0x4000 own kids rest) file.now at stop →
        ObjectIs at own kids result }
{
    let stop = at + long_at(file, at + 2) as usize;
    let name = studio_names::name_size(file, at + 6, stop);
    let mesh = next_child(file, 0x4100, at + 6 + name, stop);
    Object {
        size: name - 1,
        mesh,
        stop,
    }
}

// The mesh of a number among the objects of a figure, which are children of 3D3D; or how many meshes there are.
fn find_among(file: &[u8], objects: Between, mesh: usize) -> Result<Place, Refusal>
    requires { SomeObjects file.now objects.from objects.stop }
    ensures { (p : Parent) (t : Run) (a n : ℕ) → p.id ≡ 0x3D3D → Spans p t file.now objects.from objects.stop →
        FoundIs file.now (map mesh_in (standing_of objects.from a n t)) mesh result }
{
    let mut before = 0usize;
    let mut at = next_child(file, 0x4000, objects.from, objects.stop);
    // a `while`: each object tells where the next is looked for
    while at < objects.stop {
        let object = object_at(file, at);
        if object.mesh < object.stop {
            if before == mesh {
                return Ok(place_of(file, object.mesh, at + 6, object.size));
            }
            before += 1;
        }
        at = next_child(file, 0x4000, object.stop, objects.stop);
    }
    Err(Refusal::NoSuchMesh(before))
}

// Where the objects stand: from the first of them to the end of the one 3D3D.
pub fn find_objects(file: &[u8]) -> Between
    requires { Accepted file.now }
    ensures { (kids : Run) → Meets file.now kids → ObjectsAt file.now kids result.from result.stop }
{
    let at = next_child(file, 0x3D3D, 6, file.len());
    let stop = at + long_at(file, at + 2) as usize;
    let from = next_child(file, 0x4000, at + 6, stop);
    Between { from, stop }
}

// The mesh of a number in an accepted file; or how many there are.
pub fn find_mesh(file: &[u8], mesh: usize) -> Result<Place, Refusal>
    requires { Accepted file.now }
    ensures { (kids : Run) → Meets file.now kids → FoundIs file.now (meshes kids) mesh result }
{
    let objects = find_objects(file);
    find_among(file, objects, mesh)
}
