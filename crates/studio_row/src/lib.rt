// A row of the chunk table as one number, so that looking at it costs nothing: the row of crate studio_rules, packed as specs/Packed
// says. Here are its fields; crate studio_lookup looks rows up.
#![tactic(auto)]

ghost use Rattle.std.specs.Prelude.{◌≡◌};
ghost use Rattle.studio_row.specs.Packed.{may_hold_in, plus_in, plain_in, kind_in, Slot, Size};

// Whether a chunk of this row may stand in one of the parent's row.
pub fn may_hold(parent: u64, row: u64) -> bool
    ensures { result ≡ may_hold_in parent row }
{
    (parent / 16 >> row % 16) % 2 == 1
}

// The slot of "at most one" in which a chunk of this row is noted: 0 to 4, or 5 for one of no group.
pub fn slot(row: u64) -> usize
    ensures { Slot row result }
{
    (row / 1048576 % 16) as usize
}

// The shape of own data, as a number (`kind_of` in specs/Packed).
pub fn kind(row: u64) -> u64
    ensures { result ≡ kind_in row }
{
    row / 16777216 % 16
}

// Whether the row ends in "+".
pub fn may_have_children(row: u64) -> bool
    ensures { result ≡ plus_in row }
{
    row / 268435456 % 16 == 1
}

// Own data of a fixed size, and no children: most chunks of most files are such.
pub fn is_plain(row: u64) -> bool
    ensures { result ≡ plain_in row }
{
    row / 16777216 % 256 == 0
}

// The bytes of own data: all of it, or those of one element.
pub fn size(row: u64) -> usize
    ensures { Size row result }
{
    (row / 4294967296 % 256) as usize
}
