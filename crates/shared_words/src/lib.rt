// The words that every format shares. The definitions in specs/ speak of these types, and every crate that reads or
// writes anything answers with them.
#![tactic(auto)]

// The table of refusals of documents 01 and 02, by its names; the last seven are those of a stick. The number that a case
// holds is its place; a case that holds none has place 0.
#[derive(Clone, Copy)]
pub enum Refusal {
    TooLong,
    NotAFigure,
    Trailing(usize),
    Short(usize),
    Overrun(usize),
    Stray(usize),
    Misplaced(usize),
    Twice(usize),
    Name(usize),
    Length(usize),
    Number(usize),
    Index(usize),
    Count(usize),
    Missing(usize),
    NoRoom(usize),
    NoSuchMesh(usize),
    Empty,
    Slip(usize),
    Differs(usize),
    Header,
    Owner(usize),
    Size(usize),
    Father(usize),
    Text(usize),
    Form,
    Order(usize),
    Combination(usize),
    Material(usize),
    SameName(usize),
    NoMaterial(usize),
    Unchecked(usize),
    BadFigure(usize),
    Unexpected(usize),
    Absent(usize),
    Incomplete,
    NoFigure,
    Changed(usize),
}
