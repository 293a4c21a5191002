// The headers that an old radial gives (document 02, #102).
ghost use Rattle.std.specs.Prelude.{◌≡◌};
ghost use Rattle.old.specs.Headers.{gates_of, place_of, moment_length, moment_count, radial_from, moment_from};

use crate::codes::Quantity;
use crate::record::OldRadial;
use crate::{angle, clock, codes};
use moment::Moment;
use radial::Radial;

// How many gates a moment of an old radial has.
#[tactic(auto, unfolding(crate::specs::Headers::gates_of))]
pub fn gates(q: Quantity, o: OldRadial) -> u16
    ensures { result ≡ gates_of q o }
{
    match q {
        Quantity::Reflectivity => o.reflectivity,
        Quantity::Velocity => o.doppler,
        Quantity::Width => o.doppler,
    }
}

// Where its codes begin in the old radial: reflectivity, velocity, width, back to back.
#[tactic(auto, unfolding(crate::specs::Headers::place_of))]
pub fn place(q: Quantity, o: OldRadial) -> usize
    ensures { result ≡ place_of q o }
{
    match q {
        Quantity::Reflectivity => OldRadial::DATA,
        Quantity::Velocity => OldRadial::DATA + o.reflectivity as usize,
        Quantity::Width => OldRadial::DATA + o.reflectivity as usize + o.doppler as usize,
    }
}

// The bytes of a moment, its header among them; none where it has no gates.
#[tactic(auto, using(std::proofs::lemmas::Bool::Decides::nat_tests), unfolding(crate::specs::Headers::moment_length))]
pub fn moment_length(gates: u16) -> u32
    ensures { result ≡ moment_length gates }
{
    if gates == 0 {
        0
    } else {
        Moment::SIZE as u32 + 2 * (gates as u32)
    }
}

// How many moments have gates.
#[tactic(auto, using(std::proofs::lemmas::Bool::Decides::nat_tests), unfolding(crate::specs::Headers::moment_count))]
fn moment_count(reflectivity: u16, doppler: u16) -> u32
    ensures { result ≡ moment_count reflectivity doppler }
{
    let first = if reflectivity == 0 { 0 } else { 1 };
    let others = if doppler == 0 { 0 } else { 2 };
    first + others
}

// The radial header, with its counts in the volume and in the cut.
pub fn radial_from(o: OldRadial, sequence: u32, number: u32) -> Radial
    ensures { result ≡ radial_from o sequence number }
{
    Radial {
        state: o.state as u32,
        spot_blank: 0,
        sequence,
        radial_number: number,
        elevation_number: o.elevation_number as u32,
        azimuth: angle::angle(o.azimuth),
        elevation: angle::angle(o.elevation),
        seconds: clock::seconds_low(o.day, o.milliseconds),
        microseconds: clock::micros(o.milliseconds),
        length_of_data: moment_length(o.reflectivity) + 2 * moment_length(o.doppler),
        moment_number: moment_count(o.reflectivity, o.doppler),
        reserved: [0u8; 20],
    }
}

// A moment header.
#[tactic(auto, unfolding(crate::specs::Headers::moment_from))]
pub fn moment_from(q: Quantity, resolution: u16, gates: u16) -> Moment
    ensures { result ≡ moment_from q resolution gates }
{
    let c = codes::coding(q, resolution);
    Moment {
        data_type: c.data_type,
        scale: c.scale as u32,
        offset: c.offset as u32,
        bin_length: 2,
        flags: 0,
        length: 2 * (gates as u32),
        reserved: [0u8; 12],
    }
}
