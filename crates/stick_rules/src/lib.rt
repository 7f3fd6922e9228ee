// What is handed over of an item: one file or folder that the walk of a stick met. The definitions in specs/ speak of this type.
#![tactic(auto)]

// The record of an item, as C hands it over: where its path stands among the names, how long that is, its kind, its size, the
// sum of all its bytes, the reader that was given them, and what that answered.
#[repr(C)]
#[derive(Clone, Copy)]
pub struct ItemRecord {
    pub name: u64,
    pub len: u64,
    pub kind: u64,
    pub size: u64,
    pub checksum: u64,
    pub reader: u64,
    pub answer: u64,
}
