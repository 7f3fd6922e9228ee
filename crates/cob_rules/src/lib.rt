// The types of the Caligari reader. The definitions in specs/ speak of these types.
#![tactic(auto)]

// The four chunk types of Q-4, and any other.
#[derive(Clone, Copy)]
pub enum Kind {
    End,
    Grou,
    PolH,
    Mat1,
    Other,
}

// One chunk of the four in the list. `kind` is its four letters, the first in the lowest
// byte: a number and no `Kind`, since C reads it (tds_cob_list).
#[repr(C)]
#[derive(Clone, Copy)]
pub struct Record {
    pub kind: u32,
    pub offset: u32,
    pub len: u32,
    pub identifier: u32,
    pub parent: u32,
    pub owner: u32,
}
