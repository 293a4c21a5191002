// The radial header block (table 3-1): 64 bytes, every one of them in a field. INT, SHORT and FLOAT fields are carried as their bits.
#![tactic(auto)]

ghost use Rattle.std.specs.Prelude.{◌≡◌, ◌+◌, ◌≤◌, length, pos};
ghost use Rattle.le.specs.Le.{stored, patch, int};
ghost use Rattle.rules.specs.Check.{breaks};
ghost use Rattle.rules.specs.Ranges.{among, is, count_clauses, most_radials, most_sequence};
ghost use Rattle.radial.specs.Radial.{radial_of, radial_at, radial_bytes, radial_size, radial_check};

use rules::check::{Clause, clauses, rule};
use rules::ranges::not_below_zero;
use rules::{angles, states, tiling};

#[derive(Clone, Copy)]
pub struct Radial {
    pub state: u32,
    pub spot_blank: u32,
    pub sequence: u32,
    pub radial_number: u32,
    pub elevation_number: u32,
    pub azimuth: u32,
    pub elevation: u32,
    pub seconds: u32,
    pub microseconds: u32,
    pub length_of_data: u32,
    pub moment_number: u32,
    pub reserved: [u8; 20],
}

// What the blocks before a radial settle for it: its volume and cut, and the radials counted so far.
#[derive(Clone, Copy)]
pub struct RadialDue {
    pub scan_type: u32,
    pub cuts: u32,
    pub cut: u32,
    pub before: usize,
    pub in_cut: usize,
}

impl Radial {
    pub const SIZE: usize = 64;

    pub const STATE: usize = 0;

    pub const SPOT_BLANK: usize = 4;

    pub const SEQUENCE: usize = 8;

    pub const RADIAL_NUMBER: usize = 12;

    pub const ELEVATION_NUMBER: usize = 16;

    pub const AZIMUTH: usize = 20;

    pub const ELEVATION: usize = 24;

    pub const SECONDS: usize = 28;

    pub const MICROSECONDS: usize = 32;

    pub const LENGTH_OF_DATA: usize = 36;

    pub const MOMENT_NUMBER: usize = 40;

    pub const RESERVED: usize = 44;

    // The record that a block's bytes hold.
    fn decode(b: &[u8; 64]) -> Self
        ensures { result ≡ radial_of b.now }
    {
        Self {
            state: le::u32_at(b, Self::STATE),
            spot_blank: le::u32_at(b, Self::SPOT_BLANK),
            sequence: le::u32_at(b, Self::SEQUENCE),
            radial_number: le::u32_at(b, Self::RADIAL_NUMBER),
            elevation_number: le::u32_at(b, Self::ELEVATION_NUMBER),
            azimuth: le::u32_at(b, Self::AZIMUTH),
            elevation: le::u32_at(b, Self::ELEVATION),
            seconds: le::u32_at(b, Self::SECONDS),
            microseconds: le::u32_at(b, Self::MICROSECONDS),
            length_of_data: le::u32_at(b, Self::LENGTH_OF_DATA),
            moment_number: le::u32_at(b, Self::MOMENT_NUMBER),
            reserved: le::bytes_at(b, Self::RESERVED),
        }
    }

    // The record at a place.
    pub fn read(s: &[u8], at: usize) -> Self
        ensures { result ≡ radial_at s.now at }
    {
        Self::decode(&le::bytes_at(s, at))
    }

    // The record into a room at a place, where it fits; no other byte changes.
    pub fn write(self, room: &mut [u8], at: usize)
        ensures { room.new ≡ stored radial_size room.old at (radial_bytes self) }
    {
        if le::has(room.len(), at, Self::SIZE) {
            self.write_here(room, at);
        }
    }

    fn write_here(self, room: &mut [u8], at: usize)
        requires { at + radial_size ≤ length room.old }
        ensures { room.new ≡ patch room.old at (radial_bytes self) }
    {
        le::put_words(
            room,
            at,
            &[
                self.state,
                self.spot_blank,
                self.sequence,
                self.radial_number,
                self.elevation_number,
                self.azimuth,
                self.elevation,
                self.seconds,
                self.microseconds,
                self.length_of_data,
                self.moment_number,
            ],
        );
        le::put_bytes(room, at + Self::RESERVED, self.reserved);
    }

    // The first broken clause of the first broken rule of the block.
    pub fn check(self, due: RadialDue) -> Result<(), Clause>
        ensures { result ≡ radial_check self due }
    {
        rule(
            states::state_ok(due.scan_type, due.cuts, due.cut, due.in_cut, self.state),
            10,
            Self::STATE as u8,
            4,
        )?;
        rule(
            spot_blank_ok(self.spot_blank),
            11,
            Self::SPOT_BLANK as u8,
            4,
        )?;
        clauses(
            sequence_breaks(due.before, self.sequence),
            12,
            Self::SEQUENCE as u8,
            4,
        )?;
        clauses(
            radial_number_breaks(due.in_cut, self.radial_number),
            13,
            Self::RADIAL_NUMBER as u8,
            4,
        )?;
        rule(
            elevation_number_ok(due.cut, self.elevation_number),
            14,
            Self::ELEVATION_NUMBER as u8,
            4,
        )?;
        rule(angles::azimuth_ok(self.azimuth), 15, Self::AZIMUTH as u8, 4)?;
        rule(
            angles::elevation_ok(self.elevation),
            16,
            Self::ELEVATION as u8,
            4,
        )?;
        rule(not_below_zero(self.seconds), 17, Self::SECONDS as u8, 4)?;
        rule(
            microseconds_ok(self.microseconds),
            17,
            Self::MICROSECONDS as u8,
            4,
        )?;
        rule(
            length_of_data_ok(self.length_of_data),
            18,
            Self::LENGTH_OF_DATA as u8,
            4,
        )?;
        clauses(
            tiling::moment_number_breaks(self.length_of_data, self.moment_number),
            19,
            Self::MOMENT_NUMBER as u8,
            4,
        )
    }
}

// One function a range, here and below: each rule of a field is decided by a match with ranges, and no range of a match is a parameter.
// Which clause of number 12 (table 3-1) a sequence breaks first: one more than the radials before it, 65,536 at the most.
fn sequence_breaks(before: usize, x: u32) -> u8
    ensures { result ≡ breaks (count_clauses most_sequence before x) }
{
    match x {
        1..=65536 => if (x - 1) as usize == before { 0 } else { 1 },
        65537..=0x7fff_ffff => if (x - 1) as usize == before { 2 } else { 1 },
        _ => 1,
    }
}

// Which clause of number 13 (table 3-1) a radial number breaks first: its count in the cut, 1000 at the most.
fn radial_number_breaks(before: usize, x: u32) -> u8
    ensures { result ≡ breaks (count_clauses most_radials before x) }
{
    match x {
        1..=1000 => if (x - 1) as usize == before { 0 } else { 1 },
        1001..=0x7fff_ffff => if (x - 1) as usize == before { 2 } else { 1 },
        _ => 1,
    }
}

// Number 14 (table 3-1): the cut's number.
fn elevation_number_ok(cut: u32, x: u32) -> bool
    ensures { result ≡ is cut (int x) }
{
    match x {
        0..=0x7fff_ffff => x == cut,
        _ => false,
    }
}

// Number 11 (table 3-1).
fn spot_blank_ok(x: u32) -> bool
    ensures { result ≡ among (pos 0) (pos 1) (int x) }
{
    match x {
        0..=1 => true,
        _ => false,
    }
}

// Number 17 (table 3-1), its second field.
fn microseconds_ok(x: u32) -> bool
    ensures { result ≡ among (pos 0) (pos 999999) (int x) }
{
    match x {
        0..=999999 => true,
        _ => false,
    }
}

// Number 18 (table 3-1).
fn length_of_data_ok(x: u32) -> bool
    ensures { result ≡ among (pos 1) (pos 100000) (int x) }
{
    match x {
        1..=100000 => true,
        _ => false,
    }
}
