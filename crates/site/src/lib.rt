// The site block (table 2-3): 128 bytes, every one of them in a field. INT, SHORT and FLOAT fields are carried as their bits.
#![tactic(auto)]

ghost use Rattle.std.specs.Prelude.{◌≡◌, ◌+◌, ◌≤◌, length};
ghost use Rattle.le.specs.Le.{stored, patch};
ghost use Rattle.site.specs.Site.{site_of, site_at, site_bytes, site_size, site_check};

use rules::angles;
use rules::check::{Clause, rule};

#[derive(Clone, Copy)]
pub struct Site {
    pub code: [u8; 8],
    pub name: [u8; 32],
    pub latitude: u32,
    pub longitude: u32,
    pub antenna_height: u32,
    pub ground_height: u32,
    pub frequency: u32,
    pub beam_width_h: u32,
    pub beam_width_v: u32,
    pub rda_version: u32,
    pub radar_type: u16,
    pub reserved: [u8; 54],
}

impl Site {
    pub const SIZE: usize = 128;

    pub const CODE: usize = 0;

    pub const NAME: usize = 8;

    pub const LATITUDE: usize = 40;

    pub const LONGITUDE: usize = 44;

    pub const ANTENNA_HEIGHT: usize = 48;

    pub const GROUND_HEIGHT: usize = 52;

    pub const FREQUENCY: usize = 56;

    pub const BEAM_WIDTH_H: usize = 60;

    pub const BEAM_WIDTH_V: usize = 64;

    pub const RDA_VERSION: usize = 68;

    pub const RADAR_TYPE: usize = 72;

    pub const RESERVED: usize = 74;

    // The record that a block's bytes hold.
    fn decode(b: &[u8; 128]) -> Self
        ensures { result ≡ site_of b.now }
    {
        Self {
            code: le::bytes_at(b, Self::CODE),
            name: le::bytes_at(b, Self::NAME),
            latitude: le::u32_at(b, Self::LATITUDE),
            longitude: le::u32_at(b, Self::LONGITUDE),
            antenna_height: le::u32_at(b, Self::ANTENNA_HEIGHT),
            ground_height: le::u32_at(b, Self::GROUND_HEIGHT),
            frequency: le::u32_at(b, Self::FREQUENCY),
            beam_width_h: le::u32_at(b, Self::BEAM_WIDTH_H),
            beam_width_v: le::u32_at(b, Self::BEAM_WIDTH_V),
            rda_version: le::u32_at(b, Self::RDA_VERSION),
            radar_type: le::u16_at(b, Self::RADAR_TYPE),
            reserved: le::bytes_at(b, Self::RESERVED),
        }
    }

    // The record at a place.
    pub fn read(s: &[u8], at: usize) -> Self
        ensures { result ≡ site_at s.now at }
    {
        Self::decode(&le::bytes_at(s, at))
    }

    // The record into a room at a place, where it fits; no other byte changes.
    pub fn write(self, room: &mut [u8], at: usize)
        ensures { room.new ≡ stored site_size room.old at (site_bytes self) }
    {
        if le::has(room.len(), at, Self::SIZE) {
            self.write_here(room, at);
        }
    }

    fn write_here(self, room: &mut [u8], at: usize)
        requires { at + site_size ≤ length room.old }
        ensures { room.new ≡ patch room.old at (site_bytes self) }
    {
        le::put_bytes(room, at, self.code);
        le::put_bytes(room, at + Self::NAME, self.name);
        le::put_words(
            room,
            at + Self::LATITUDE,
            &[
                self.latitude,
                self.longitude,
                self.antenna_height,
                self.ground_height,
                self.frequency,
                self.beam_width_h,
                self.beam_width_v,
                self.rda_version,
            ],
        );
        le::put_u16(room, at + Self::RADAR_TYPE, self.radar_type);
        le::put_bytes(room, at + Self::RESERVED, self.reserved);
    }

    // The first broken clause of the first broken rule of the block.
    pub fn check(self) -> Result<(), Clause>
        ensures { result ≡ site_check self }
    {
        rule(
            angles::latitude_ok(self.latitude),
            3,
            Self::LATITUDE as u8,
            4,
        )?;
        rule(
            angles::longitude_ok(self.longitude),
            4,
            Self::LONGITUDE as u8,
            4,
        )
    }
}
