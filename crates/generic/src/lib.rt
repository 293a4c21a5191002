// The generic header block (table 2-2): 32 bytes, every one of them in a field. INT, SHORT and FLOAT fields are carried as their bits.
#![tactic(auto)]

ghost use Rattle.std.specs.Prelude.{◌≡◌, ◌+◌, ◌≤◌, length};
ghost use Rattle.le.specs.Le.{stored, patch, int};
ghost use Rattle.rules.specs.Ranges.{is};
ghost use Rattle.generic.specs.Generic.{generic_of, generic_at, generic_bytes, generic_size, generic_check};

use rules::check::{Clause, rule};

#[derive(Clone, Copy)]
pub struct Generic {
    pub magic: u32,
    pub major: u16,
    pub minor: u16,
    pub generic_type: u32,
    pub product_type: u32,
    pub reserved: [u8; 16],
}

impl Generic {
    pub const SIZE: usize = 32;

    pub const MAGIC_WORD: u32 = 0x4D54_5352;

    pub const MAGIC: usize = 0;

    pub const MAJOR: usize = 4;

    pub const MINOR: usize = 6;

    pub const GENERIC_TYPE: usize = 8;

    pub const PRODUCT_TYPE: usize = 12;

    pub const RESERVED: usize = 16;

    // The record that a block's bytes hold.
    fn decode(b: &[u8; 32]) -> Self
        ensures { result ≡ generic_of b.now }
    {
        Self {
            magic: le::u32_at(b, Self::MAGIC),
            major: le::u16_at(b, Self::MAJOR),
            minor: le::u16_at(b, Self::MINOR),
            generic_type: le::u32_at(b, Self::GENERIC_TYPE),
            product_type: le::u32_at(b, Self::PRODUCT_TYPE),
            reserved: le::bytes_at(b, Self::RESERVED),
        }
    }

    // The record at a place.
    pub fn read(s: &[u8], at: usize) -> Self
        ensures { result ≡ generic_at s.now at }
    {
        Self::decode(&le::bytes_at(s, at))
    }

    // The record into a room at a place, where it fits; no other byte changes.
    pub fn write(self, room: &mut [u8], at: usize)
        ensures { room.new ≡ stored generic_size room.old at (generic_bytes self) }
    {
        if le::has(room.len(), at, Self::SIZE) {
            self.write_here(room, at);
        }
    }

    fn write_here(self, room: &mut [u8], at: usize)
        requires { at + generic_size ≤ length room.old }
        ensures { room.new ≡ patch room.old at (generic_bytes self) }
    {
        le::put_u32(room, at, self.magic);
        le::put_halves(room, at + Self::MAJOR, &[self.major, self.minor]);
        le::put_words(
            room,
            at + Self::GENERIC_TYPE,
            &[self.generic_type, self.product_type],
        );
        le::put_bytes(room, at + Self::RESERVED, self.reserved);
    }

    // The first broken clause of the first broken rule of the block.
    pub fn check(self) -> Result<(), Clause>
        ensures { result ≡ generic_check self }
    {
        rule(magic_ok(self.magic), 1, Self::MAGIC as u8, 4)?;
        rule(
            generic_type_ok(self.generic_type),
            2,
            Self::GENERIC_TYPE as u8,
            4,
        )
    }
}

// Number 1 (table 2-2).
fn magic_ok(x: u32) -> bool
    ensures { result ≡ is 0x4D545352 (int x) }
{
    x == Generic::MAGIC_WORD
}

// Number 2 (table 2-2).
fn generic_type_ok(x: u32) -> bool
    ensures { result ≡ is 1 (int x) }
{
    match x {
        1 => true,
        _ => false,
    }
}
