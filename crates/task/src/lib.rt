// The task block (table 2-4): 256 bytes, every one of them in a field. INT, SHORT and FLOAT fields are carried as their bits.
#![tactic(auto)]

ghost use Rattle.std.specs.Prelude.{◌≡◌, ◌+◌, ◌≤◌, length, pos};
ghost use Rattle.le.specs.Le.{stored, patch, int};
ghost use Rattle.rules.specs.Ranges.{among};
ghost use Rattle.task.specs.Task.{task_of, task_at, task_bytes, task_size, task_check};

use rules::check::{Clause, clauses, rule};
use rules::ranges::not_below_zero;
use rules::states;

#[derive(Clone, Copy)]
pub struct Task {
    pub name: [u8; 32],
    pub description: [u8; 128],
    pub polarization: u32,
    pub scan_type: u32,
    pub pulse_width: u32,
    pub start_time: u32,
    pub cut_number: u32,
    pub noise_h: u32,
    pub noise_v: u32,
    pub calibration_h: u32,
    pub calibration_v: u32,
    pub noise_temperature_h: u32,
    pub noise_temperature_v: u32,
    pub zdr_calibration: u32,
    pub phase_calibration: u32,
    pub ldr_calibration: u32,
    pub reserved: [u8; 40],
}

impl Task {
    pub const SIZE: usize = 256;

    pub const NAME: usize = 0;

    pub const DESCRIPTION: usize = 32;

    pub const POLARIZATION: usize = 160;

    pub const SCAN_TYPE: usize = 164;

    pub const PULSE_WIDTH: usize = 168;

    pub const START_TIME: usize = 172;

    pub const CUT_NUMBER: usize = 176;

    pub const NOISE_H: usize = 180;

    pub const NOISE_V: usize = 184;

    pub const CALIBRATION_H: usize = 188;

    pub const CALIBRATION_V: usize = 192;

    pub const NOISE_TEMPERATURE_H: usize = 196;

    pub const NOISE_TEMPERATURE_V: usize = 200;

    pub const ZDR_CALIBRATION: usize = 204;

    pub const PHASE_CALIBRATION: usize = 208;

    pub const LDR_CALIBRATION: usize = 212;

    pub const RESERVED: usize = 216;

    // The record that a block's bytes hold.
    fn decode(b: &[u8; 256]) -> Self
        ensures { result ≡ task_of b.now }
    {
        Self {
            name: le::bytes_at(b, Self::NAME),
            description: le::bytes_at(b, Self::DESCRIPTION),
            polarization: le::u32_at(b, Self::POLARIZATION),
            scan_type: le::u32_at(b, Self::SCAN_TYPE),
            pulse_width: le::u32_at(b, Self::PULSE_WIDTH),
            start_time: le::u32_at(b, Self::START_TIME),
            cut_number: le::u32_at(b, Self::CUT_NUMBER),
            noise_h: le::u32_at(b, Self::NOISE_H),
            noise_v: le::u32_at(b, Self::NOISE_V),
            calibration_h: le::u32_at(b, Self::CALIBRATION_H),
            calibration_v: le::u32_at(b, Self::CALIBRATION_V),
            noise_temperature_h: le::u32_at(b, Self::NOISE_TEMPERATURE_H),
            noise_temperature_v: le::u32_at(b, Self::NOISE_TEMPERATURE_V),
            zdr_calibration: le::u32_at(b, Self::ZDR_CALIBRATION),
            phase_calibration: le::u32_at(b, Self::PHASE_CALIBRATION),
            ldr_calibration: le::u32_at(b, Self::LDR_CALIBRATION),
            reserved: le::bytes_at(b, Self::RESERVED),
        }
    }

    // The record at a place.
    pub fn read(s: &[u8], at: usize) -> Self
        ensures { result ≡ task_at s.now at }
    {
        Self::decode(&le::bytes_at(s, at))
    }

    // The record into a room at a place, where it fits; no other byte changes.
    pub fn write(self, room: &mut [u8], at: usize)
        ensures { room.new ≡ stored task_size room.old at (task_bytes self) }
    {
        if le::has(room.len(), at, Self::SIZE) {
            self.write_here(room, at);
        }
    }

    fn write_here(self, room: &mut [u8], at: usize)
        requires { at + task_size ≤ length room.old }
        ensures { room.new ≡ patch room.old at (task_bytes self) }
    {
        le::put_bytes(room, at, self.name);
        le::put_bytes(room, at + Self::DESCRIPTION, self.description);
        le::put_words(
            room,
            at + Self::POLARIZATION,
            &[
                self.polarization,
                self.scan_type,
                self.pulse_width,
                self.start_time,
                self.cut_number,
                self.noise_h,
                self.noise_v,
                self.calibration_h,
                self.calibration_v,
                self.noise_temperature_h,
                self.noise_temperature_v,
                self.zdr_calibration,
                self.phase_calibration,
                self.ldr_calibration,
            ],
        );
        le::put_bytes(room, at + Self::RESERVED, self.reserved);
    }

    // The first broken clause of the first broken rule of the block.
    pub fn check(self) -> Result<(), Clause>
        ensures { result ≡ task_check self }
    {
        rule(
            polarization_ok(self.polarization),
            5,
            Self::POLARIZATION as u8,
            4,
        )?;
        rule(scan_type_ok(self.scan_type), 6, Self::SCAN_TYPE as u8, 4)?;
        rule(
            not_below_zero(self.start_time),
            7,
            Self::START_TIME as u8,
            4,
        )?;
        clauses(
            states::cut_number_breaks(self.scan_type, self.cut_number),
            8,
            Self::CUT_NUMBER as u8,
            4,
        )
    }
}

// One function a range: each rule of a field is decided by a match with ranges, and no range of a match is a parameter.
// Number 5 (table 2-4).
fn polarization_ok(x: u32) -> bool
    ensures { result ≡ among (pos 1) (pos 4) (int x) }
{
    match x {
        1..=4 => true,
        _ => false,
    }
}

// Number 6 (table 2-4).
fn scan_type_ok(x: u32) -> bool
    ensures { result ≡ among (pos 0) (pos 6) (int x) }
{
    match x {
        0..=6 => true,
        _ => false,
    }
}
