// What the calls of the slip answer. The definitions in specs/ speak of these types.
#![tactic(auto)]

use shared_words::Refusal;

// An entry in a lent row: where its name stands, the name's length, the file's length, and first sum + 256 * second sum.
#[repr(C)]
#[derive(Clone, Copy)]
pub struct Numbers {
    pub name: u32,
    pub len: u32,
    pub file: u32,
    pub sums: u32,
}
