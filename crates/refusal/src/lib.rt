// Why a question is refused. The refusals of a volume's blocks have a place too, and are told by reading and the writer.
#![tactic(auto)]

ghost use Rattle.std.specs.Prelude.{◌≡◌};
ghost use Rattle.refusal.specs.Refusal.{number_of};

#[derive(Clone, Copy, PartialEq, Eq)]
pub enum Refusal {
    // No such whole radial; of a tally, no such cut.
    NoRadial,
    NoMoment,
    NoGate,
    // A lent room is too short.
    NoRoom,
    NotComplete,
    // Of a broken volume, no radials to be closed.
    NothingWhole,
    // The index is not the file's own.
    WrongIndex,
    // An end of the wedge is out of range.
    NoWedge,
}

impl Refusal {
    // The number by which the refusal is told.
    pub fn number(self) -> u32
        ensures { result ≡ number_of self }
    {
        match self {
            Refusal::NoRadial => 30,
            Refusal::NoMoment => 31,
            Refusal::NoGate => 32,
            Refusal::NoRoom => 33,
            Refusal::NotComplete => 36,
            Refusal::NothingWhole => 54,
            Refusal::WrongIndex => 59,
            Refusal::NoWedge => 61,
        }
    }
}
