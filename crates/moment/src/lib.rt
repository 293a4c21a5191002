// The moment header block (table 3-2): 32 bytes, every one of them in a field. INT, SHORT and FLOAT fields are carried as their bits.
#![tactic(auto)]

ghost use Rattle.std.specs.Prelude.{◌≡◌, ◌+◌, ◌≤◌, length, pos};
ghost use Rattle.le.specs.Le.{stored, patch, int};
ghost use Rattle.rules.specs.Ranges.{among};
ghost use Rattle.moment.specs.Moment.{moment_of, moment_at, moment_bytes, moment_size, moment_check};

use rules::check::{Clause, clauses, rule};
use rules::{masks, tiling};

#[derive(Clone, Copy)]
pub struct Moment {
    pub data_type: u32,
    pub scale: u32,
    pub offset: u32,
    pub bin_length: u16,
    pub flags: u16,
    pub length: u32,
    pub reserved: [u8; 12],
}

// What the blocks before a moment settle for it: its cut's masks, the types that its radial has shown, the bytes of
// data left in the radial and the moments still to come, this one among them.
#[derive(Clone, Copy)]
pub struct MomentDue {
    pub mask: u64,
    pub sizes: u64,
    pub seen: u64,
    pub left: usize,
    pub todo: usize,
}

impl Moment {
    pub const SIZE: usize = 32;

    pub const DATA_TYPE: usize = 0;

    pub const SCALE: usize = 4;

    pub const OFFSET: usize = 8;

    pub const BIN_LENGTH: usize = 12;

    pub const FLAGS: usize = 14;

    pub const LENGTH: usize = 16;

    pub const RESERVED: usize = 20;

    // The record that a block's bytes hold.
    fn decode(b: &[u8; 32]) -> Self
        ensures { result ≡ moment_of b.now }
    {
        Self {
            data_type: le::u32_at(b, Self::DATA_TYPE),
            scale: le::u32_at(b, Self::SCALE),
            offset: le::u32_at(b, Self::OFFSET),
            bin_length: le::u16_at(b, Self::BIN_LENGTH),
            flags: le::u16_at(b, Self::FLAGS),
            length: le::u32_at(b, Self::LENGTH),
            reserved: le::bytes_at(b, Self::RESERVED),
        }
    }

    // The record at a place.
    pub fn read(s: &[u8], at: usize) -> Self
        ensures { result ≡ moment_at s.now at }
    {
        Self::decode(&le::bytes_at(s, at))
    }

    // The record into a room at a place, where it fits; no other byte changes.
    pub fn write(self, room: &mut [u8], at: usize)
        ensures { room.new ≡ stored moment_size room.old at (moment_bytes self) }
    {
        if le::has(room.len(), at, Self::SIZE) {
            self.write_here(room, at);
        }
    }

    fn write_here(self, room: &mut [u8], at: usize)
        requires { at + moment_size ≤ length room.old }
        ensures { room.new ≡ patch room.old at (moment_bytes self) }
    {
        le::put_words(room, at, &[self.data_type, self.scale, self.offset]);
        le::put_halves(room, at + Self::BIN_LENGTH, &[self.bin_length, self.flags]);
        le::put_u32(room, at + Self::LENGTH, self.length);
        le::put_bytes(room, at + Self::RESERVED, self.reserved);
    }

    // The first broken clause of the first broken rule of the block.
    pub fn check(self, due: MomentDue) -> Result<(), Clause>
        ensures { result ≡ moment_check self due }
    {
        clauses(
            masks::type_breaks(due.mask, due.seen, self.data_type),
            20,
            Self::DATA_TYPE as u8,
            4,
        )?;
        rule(scale_ok(self.scale), 21, Self::SCALE as u8, 4)?;
        rule(offset_ok(self.offset), 22, Self::OFFSET as u8, 4)?;
        clauses(
            masks::bin_length_breaks(due.sizes, self.data_type, self.bin_length),
            23,
            Self::BIN_LENGTH as u8,
            2,
        )?;
        clauses(
            tiling::length_breaks(due.todo, due.left, self.bin_length, self.length),
            24,
            Self::LENGTH as u8,
            4,
        )
    }
}

// One function a range: each rule of a field is decided by a match with ranges, and no range of a match is a parameter.
// Number 21 (table 3-2).
fn scale_ok(x: u32) -> bool
    ensures { result ≡ among (pos 1) (pos 32768) (int x) }
{
    match x {
        1..=32768 => true,
        _ => false,
    }
}

// Number 22 (table 3-2).
fn offset_ok(x: u32) -> bool
    ensures { result ≡ among (pos 0) (pos 32768) (int x) }
{
    match x {
        0..=32768 => true,
        _ => false,
    }
}
