// What the calls of the reader answer. The definitions in specs/ speak of these types, and every crate that reads a
// figure answers with them.
#![tactic(auto)]

// One known chunk in the list. `next` is the number of the first record behind it and all that it holds.
#[repr(C)]
#[derive(Clone, Copy)]
pub struct Record {
    pub identifier: u32,
    pub offset: u32,
    pub len: u32,
    pub depth: u32,
    pub parent: u32,
    pub own: u32,
    pub next: u32,
}

// How many records the list has, and the three byte counts.
#[derive(Clone, Copy)]
pub struct Counts {
    pub records: usize,
    pub headers: usize,
    pub own: usize,
    pub skipped: usize,
}

// How many vertices and faces a mesh has, and how many pairs its mapping.
#[derive(Clone, Copy)]
pub struct Sizes {
    pub vertices: usize,
    pub faces: usize,
    pub pairs: usize,
}

// Where a name stands in the file, and its length without the zero.
#[derive(Clone, Copy)]
pub struct Span {
    pub offset: usize,
    pub size: usize,
}

// A corner of a box.
#[derive(Clone, Copy)]
pub struct Corner {
    pub x: f32,
    pub y: f32,
    pub z: f32,
}

// A box: its low and its high corner.
#[derive(Clone, Copy)]
pub struct BoundingBox {
    pub low: Corner,
    pub high: Corner,
}

// The box of a mesh, and its centre.
#[derive(Clone, Copy)]
pub struct Boxed {
    pub around: BoundingBox,
    pub centre: Corner,
}
