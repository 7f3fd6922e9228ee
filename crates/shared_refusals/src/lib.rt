// A refusal by the table: its number and its place. (They are no `From` and no methods: the type stands in a crate below.)
#![tactic(auto)]

ghost use Rattle.std.specs.Prelude.{◌≡◌};
ghost use Rattle.shared_words.specs.Refusals.{place_of, Numbered};

use shared_words::Refusal;

// Its number.
pub fn number(r: Refusal) -> u32
    ensures { Numbered r result }
{
    match r {
        Refusal::TooLong => 1,
        Refusal::NotAFigure => 2,
        Refusal::Trailing(_) => 3,
        Refusal::Short(_) => 4,
        Refusal::Overrun(_) => 5,
        Refusal::Stray(_) => 6,
        Refusal::Misplaced(_) => 7,
        Refusal::Twice(_) => 8,
        Refusal::Name(_) => 9,
        Refusal::Length(_) => 10,
        Refusal::Number(_) => 11,
        Refusal::Index(_) => 12,
        Refusal::Count(_) => 13,
        Refusal::Missing(_) => 14,
        Refusal::NoRoom(_) => 15,
        Refusal::NoSuchMesh(_) => 16,
        Refusal::Empty => 17,
        Refusal::Slip(_) => 18,
        Refusal::Differs(_) => 19,
        Refusal::Header => 20,
        Refusal::Owner(_) => 21,
        Refusal::Size(_) => 22,
        Refusal::Father(_) => 23,
        Refusal::Text(_) => 24,
        Refusal::Form => 25,
        Refusal::Order(_) => 26,
        Refusal::Combination(_) => 27,
        Refusal::Material(_) => 28,
        Refusal::SameName(_) => 29,
        Refusal::NoMaterial(_) => 30,
        Refusal::Unchecked(_) => 31,
        Refusal::BadFigure(_) => 32,
        Refusal::Unexpected(_) => 33,
        Refusal::Absent(_) => 34,
        Refusal::Incomplete => 35,
        Refusal::NoFigure => 36,
        Refusal::Changed(_) => 37,
    }
}

// Its place: the number that a case holds, and 0 for one that holds none.
pub fn place(r: Refusal) -> usize
    ensures { result ≡ place_of r }
{
    match r {
        Refusal::Short(p)
        | Refusal::Trailing(p)
        | Refusal::Overrun(p)
        | Refusal::Stray(p)
        | Refusal::Misplaced(p)
        | Refusal::Twice(p)
        | Refusal::Name(p)
        | Refusal::Length(p)
        | Refusal::Number(p)
        | Refusal::Index(p)
        | Refusal::Count(p)
        | Refusal::Missing(p)
        | Refusal::NoRoom(p)
        | Refusal::NoSuchMesh(p)
        | Refusal::Slip(p)
        | Refusal::Differs(p)
        | Refusal::Owner(p)
        | Refusal::Size(p)
        | Refusal::Father(p)
        | Refusal::Text(p)
        | Refusal::Order(p)
        | Refusal::Combination(p)
        | Refusal::Material(p)
        | Refusal::SameName(p)
        | Refusal::NoMaterial(p)
        | Refusal::Unchecked(p)
        | Refusal::BadFigure(p)
        | Refusal::Unexpected(p)
        | Refusal::Absent(p)
        | Refusal::Changed(p) => p,
        _ => 0,
    }
}
