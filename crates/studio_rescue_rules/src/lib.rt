// The rescue of a damaged figure: its meaning. The definitions and statements stand in specs/, their proofs in proofs/; the
// call answers this.
#![tactic(auto)]

// How many cuts there are, and how many bytes the mended file has.
#[derive(Clone, Copy)]
pub struct Mended {
    pub cuts: usize,
    pub size: usize,
}
