// The rules of a block, taken in byte order: the first that is broken decides.
ghost use Rattle.std.specs.Prelude.{◌≡◌, Ok, [], ◌∷◌};
ghost use Rattle.rules.specs.Check.{also as also_of, breaks as breaks_of};

// The numbers are the table's own, by which a refusal is told: an enum would be a second name for each.
// A clause of the table: the refusal's number, which of its field's clauses it is, in the table's order from 1, and the field, by its
// place in the block and its size in bytes.
#[derive(Clone, Copy)]
pub struct Clause {
    pub number: u32,
    pub which: u8,
    pub place: u8,
    pub size: u8,
}

// A rule of several clauses: `breaks` is 0 where it keeps them, else the first that it breaks.
pub fn clauses(breaks: u8, number: u32, place: u8, size: u8) -> Result<(), Clause>
    ensures { result ≡ also_of (Ok tt) breaks number place size }
{
    match breaks {
        0 => Ok(()),
        _ => Err(Clause {
            number,
            which: breaks,
            place,
            size,
        }),
    }
}

// A rule of one clause.
pub fn rule(holds: bool, number: u32, place: u8, size: u8) -> Result<(), Clause>
    ensures { result ≡ also_of (Ok tt) (breaks_of (holds ∷ [])) number place size }
{
    clauses(if holds { 0 } else { 1 }, number, place, size)
}
