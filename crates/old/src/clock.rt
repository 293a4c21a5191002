// Day and milliseconds as seconds and microseconds (document 02, #102). Day 1 is 1 January 1970.
ghost use Rattle.std.specs.Prelude.{◌≡◌, ◌%◌, ◌^◌};
ghost use Rattle.rules.specs.Check.{breaks};
ghost use Rattle.old.specs.Clock.{seconds_of, micros_of, time_clauses};

// Day 0, which is refused, counts as day 1. The last day of 16 bits has more seconds than 32 bits hold.
pub fn seconds(day: u16, milliseconds: u32) -> u64
    ensures { result ≡ seconds_of day milliseconds }
{
    86400 * (day as u64).saturating_sub(1) + (milliseconds / 1000) as u64
}

// The low 32 bits: all of them where the time is accepted.
pub fn seconds_low(day: u16, milliseconds: u32) -> u32
    ensures { result ≡ seconds_of day milliseconds % 2 ^ 32 }
{
    (seconds(day, milliseconds) % 0x1_0000_0000) as u32
}

// The milliseconds that are left of a second.
pub fn micros(milliseconds: u32) -> u32
    ensures { result ≡ micros_of milliseconds }
{
    milliseconds % 1000 * 1000
}

// Which clause of number 62 a time breaks first.
#[tactic(auto, using(std::proofs::lemmas::Bool::Decides::nat_tests), unfolding(crate::specs::Clock::time_clauses))]
pub fn time_breaks(day: u16, milliseconds: u32) -> u8
    ensures { result ≡ breaks (time_clauses day milliseconds) }
{
    if day == 0 {
        1
    } else if milliseconds >= 86400000 {
        2
    } else if seconds(day, milliseconds) > 2147483647 {
        3
    } else {
        0
    }
}
