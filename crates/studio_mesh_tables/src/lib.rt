// The tables of one mesh of a file, into lent rows: as numbers or as bytes. Each call answers for every file and every number.
#![tactic(auto)]

ghost use Rattle.std.specs.Prelude.{◌≡◌};
ghost use Rattle.studio_rules.specs.Calls.{in_numbers, in_bytes, mapping_in_bytes, tables_call};
ghost use Rattle.studio_rules.specs.Within.{SizesWithin};
ghost use Rattle.studio_mesh_tables.specs.Rows.{rows, two_rows, mapping_row, sizes_at};

use shared_words::Refusal;
use studio_mesh_asked::ask_with_room;
use studio_mesh_find::Place;
use studio_mesh_pairs::{fill_pair_bytes, fill_pairs};
use studio_mesh_rows::{fill_corner_bytes, fill_corners, fill_float_bytes, fill_floats};
use studio_rules::Sizes;

// How many vertices, faces and pairs a mesh has.
fn sizes_of(place: Place) -> Sizes
    ensures { result ≡ sizes_at place }
{
    Sizes {
        vertices: place.vertices.count,
        faces: place.faces.count,
        pairs: place.mapping.pairs,
    }
}

// The vertices, corners and mapping of a mesh, into lent rows: three numbers a vertex, three corners a face, two numbers a pair.
// A refusal leaves all rows as they were.
pub fn tables(
    file: &[u8],
    mesh: u32,
    vertices: &mut [f32],
    corners: &mut [u16],
    mapping: &mut [f32],
) -> Result<Sizes, Refusal>
    ensures answer { result ≡ (tables_call in_numbers file.now mesh
        (rows vertices.old corners.old mapping.old)).answer }
    ensures filled { rows vertices.new corners.new mapping.new ≡
        (tables_call in_numbers file.now mesh (rows vertices.old corners.old mapping.old)).rows }
{
    let v = Some(vertices.len());
    let c = Some(corners.len());
    let p = Some(mapping.len());
    let place = ask_with_room(file, mesh, v, c, p)?;
    fill_floats(file, place.vertices.at, 3 * place.vertices.count, vertices);
    fill_corners(file, place.faces.at, place.faces.count, corners);
    let m = place.mapping;
    fill_pairs(file, m.at, m.count, m.pairs, mapping);
    Ok(sizes_of(place))
}

// The vertices and corners as little-endian bytes: four a number of a vertex, two a corner. A part of a number at a slice's
// end is no room.
pub fn tables_bytes(
    file: &[u8],
    mesh: u32,
    vertices: &mut [u8],
    corners: &mut [u8],
) -> Result<Sizes, Refusal>
    ensures answer { result ≡ (tables_call in_bytes file.now mesh (two_rows vertices.old corners.old)).answer }
    ensures filled { two_rows vertices.new corners.new ≡
        (tables_call in_bytes file.now mesh (two_rows vertices.old corners.old)).rows }
    ensures within { SizesWithin result }
{
    let v = Some(vertices.len() / 4);
    let c = Some(corners.len() / 2);
    let place = ask_with_room(file, mesh, v, c, None)?;
    fill_float_bytes(file, place.vertices.at, 3 * place.vertices.count, vertices);
    fill_corner_bytes(file, place.faces.at, place.faces.count, corners);
    Ok(sizes_of(place))
}

// The mapping as little-endian bytes, four a number.
pub fn mapping_bytes(file: &[u8], mesh: u32, mapping: &mut [u8]) -> Result<Sizes, Refusal>
    ensures answer { result ≡ (tables_call mapping_in_bytes file.now mesh (mapping_row mapping.old)).answer }
    ensures filled { mapping_row mapping.new ≡ (tables_call mapping_in_bytes file.now mesh (mapping_row mapping.old)).rows }
    ensures within { SizesWithin result }
{
    let p = Some(mapping.len() / 4);
    let place = ask_with_room(file, mesh, None, None, p)?;
    let m = place.mapping;
    fill_pair_bytes(file, m.at, m.count, m.pairs, mapping);
    Ok(sizes_of(place))
}
