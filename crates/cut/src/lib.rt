// The cut block (table 2-5): 256 bytes, every one of them in a field. INT, SHORT and FLOAT fields are carried as their bits.
#![tactic(auto)]

ghost use Rattle.std.specs.Prelude.{◌≡◌, ◌+◌, ◌≤◌, length, pos};
ghost use Rattle.le.specs.Le.{stored, patch, int};
ghost use Rattle.rules.specs.Ranges.{among};
ghost use Rattle.cut.specs.Cut.{cut_of, cut_at, cut_bytes, cut_size, cut_check};

use rules::check::{Clause, rule};

#[derive(Clone, Copy)]
pub struct Cut {
    pub process_mode: u32,
    pub wave_form: u32,
    pub prf1: u32,
    pub prf2: u32,
    pub unfold_mode: u32,
    pub azimuth: u32,
    pub elevation: u32,
    pub start_angle: u32,
    pub end_angle: u32,
    pub angular_resolution: u32,
    pub scan_speed: u32,
    pub log_resolution: u32,
    pub doppler_resolution: u32,
    pub maximum_range1: u32,
    pub maximum_range2: u32,
    pub start_range: u32,
    pub sample1: u32,
    pub sample2: u32,
    pub phase_mode: u32,
    pub atmospheric_loss: u32,
    pub nyquist_speed: u32,
    pub moments_mask: u64,
    pub size_mask: u64,
    pub filter_mask: u32,
    pub sqi_threshold: u32,
    pub sig_threshold: u32,
    pub csr_threshold: u32,
    pub log_threshold: u32,
    pub cpa_threshold: u32,
    pub pmi_threshold: u32,
    pub dplog_threshold: u32,
    pub thresholds_reserved: u32,
    pub db_mask: u32,
    pub dbz_mask: u32,
    pub velocity_mask: u32,
    pub spectrum_width_mask: u32,
    pub dp_mask: u32,
    pub mask_reserved: [u8; 12],
    pub scan_sync: u32,
    pub direction: u32,
    pub clutter_classifier: u16,
    pub clutter_filter: u16,
    pub clutter_notch_width: u16,
    pub clutter_window: u16,
    pub reserved: [u8; 72],
}

impl Cut {
    pub const SIZE: usize = 256;

    pub const PROCESS_MODE: usize = 0;

    pub const WAVE_FORM: usize = 4;

    pub const PRF1: usize = 8;

    pub const PRF2: usize = 12;

    pub const UNFOLD_MODE: usize = 16;

    pub const AZIMUTH: usize = 20;

    pub const ELEVATION: usize = 24;

    pub const START_ANGLE: usize = 28;

    pub const END_ANGLE: usize = 32;

    pub const ANGULAR_RESOLUTION: usize = 36;

    pub const SCAN_SPEED: usize = 40;

    pub const LOG_RESOLUTION: usize = 44;

    pub const DOPPLER_RESOLUTION: usize = 48;

    pub const MAXIMUM_RANGE1: usize = 52;

    pub const MAXIMUM_RANGE2: usize = 56;

    pub const START_RANGE: usize = 60;

    pub const SAMPLE1: usize = 64;

    pub const SAMPLE2: usize = 68;

    pub const PHASE_MODE: usize = 72;

    pub const ATMOSPHERIC_LOSS: usize = 76;

    pub const NYQUIST_SPEED: usize = 80;

    pub const MOMENTS_MASK: usize = 84;

    pub const SIZE_MASK: usize = 92;

    pub const FILTER_MASK: usize = 100;

    pub const SQI_THRESHOLD: usize = 104;

    pub const SIG_THRESHOLD: usize = 108;

    pub const CSR_THRESHOLD: usize = 112;

    pub const LOG_THRESHOLD: usize = 116;

    pub const CPA_THRESHOLD: usize = 120;

    pub const PMI_THRESHOLD: usize = 124;

    pub const DPLOG_THRESHOLD: usize = 128;

    pub const THRESHOLDS_RESERVED: usize = 132;

    pub const DB_MASK: usize = 136;

    pub const DBZ_MASK: usize = 140;

    pub const VELOCITY_MASK: usize = 144;

    pub const SPECTRUM_WIDTH_MASK: usize = 148;

    pub const DP_MASK: usize = 152;

    pub const MASK_RESERVED: usize = 156;

    pub const SCAN_SYNC: usize = 168;

    pub const DIRECTION: usize = 172;

    pub const CLUTTER_CLASSIFIER: usize = 176;

    pub const CLUTTER_FILTER: usize = 178;

    pub const CLUTTER_NOTCH_WIDTH: usize = 180;

    pub const CLUTTER_WINDOW: usize = 182;

    pub const RESERVED: usize = 184;

    // The record that a block's bytes hold.
    fn decode(b: &[u8; 256]) -> Self
        ensures { result ≡ cut_of b.now }
    {
        Self {
            process_mode: le::u32_at(b, Self::PROCESS_MODE),
            wave_form: le::u32_at(b, Self::WAVE_FORM),
            prf1: le::u32_at(b, Self::PRF1),
            prf2: le::u32_at(b, Self::PRF2),
            unfold_mode: le::u32_at(b, Self::UNFOLD_MODE),
            azimuth: le::u32_at(b, Self::AZIMUTH),
            elevation: le::u32_at(b, Self::ELEVATION),
            start_angle: le::u32_at(b, Self::START_ANGLE),
            end_angle: le::u32_at(b, Self::END_ANGLE),
            angular_resolution: le::u32_at(b, Self::ANGULAR_RESOLUTION),
            scan_speed: le::u32_at(b, Self::SCAN_SPEED),
            log_resolution: le::u32_at(b, Self::LOG_RESOLUTION),
            doppler_resolution: le::u32_at(b, Self::DOPPLER_RESOLUTION),
            maximum_range1: le::u32_at(b, Self::MAXIMUM_RANGE1),
            maximum_range2: le::u32_at(b, Self::MAXIMUM_RANGE2),
            start_range: le::u32_at(b, Self::START_RANGE),
            sample1: le::u32_at(b, Self::SAMPLE1),
            sample2: le::u32_at(b, Self::SAMPLE2),
            phase_mode: le::u32_at(b, Self::PHASE_MODE),
            atmospheric_loss: le::u32_at(b, Self::ATMOSPHERIC_LOSS),
            nyquist_speed: le::u32_at(b, Self::NYQUIST_SPEED),
            moments_mask: le::u64_at(b, Self::MOMENTS_MASK),
            size_mask: le::u64_at(b, Self::SIZE_MASK),
            filter_mask: le::u32_at(b, Self::FILTER_MASK),
            sqi_threshold: le::u32_at(b, Self::SQI_THRESHOLD),
            sig_threshold: le::u32_at(b, Self::SIG_THRESHOLD),
            csr_threshold: le::u32_at(b, Self::CSR_THRESHOLD),
            log_threshold: le::u32_at(b, Self::LOG_THRESHOLD),
            cpa_threshold: le::u32_at(b, Self::CPA_THRESHOLD),
            pmi_threshold: le::u32_at(b, Self::PMI_THRESHOLD),
            dplog_threshold: le::u32_at(b, Self::DPLOG_THRESHOLD),
            thresholds_reserved: le::u32_at(b, Self::THRESHOLDS_RESERVED),
            db_mask: le::u32_at(b, Self::DB_MASK),
            dbz_mask: le::u32_at(b, Self::DBZ_MASK),
            velocity_mask: le::u32_at(b, Self::VELOCITY_MASK),
            spectrum_width_mask: le::u32_at(b, Self::SPECTRUM_WIDTH_MASK),
            dp_mask: le::u32_at(b, Self::DP_MASK),
            mask_reserved: le::bytes_at(b, Self::MASK_RESERVED),
            scan_sync: le::u32_at(b, Self::SCAN_SYNC),
            direction: le::u32_at(b, Self::DIRECTION),
            clutter_classifier: le::u16_at(b, Self::CLUTTER_CLASSIFIER),
            clutter_filter: le::u16_at(b, Self::CLUTTER_FILTER),
            clutter_notch_width: le::u16_at(b, Self::CLUTTER_NOTCH_WIDTH),
            clutter_window: le::u16_at(b, Self::CLUTTER_WINDOW),
            reserved: le::bytes_at(b, Self::RESERVED),
        }
    }

    // The record at a place.
    pub fn read(s: &[u8], at: usize) -> Self
        ensures { result ≡ cut_at s.now at }
    {
        Self::decode(&le::bytes_at(s, at))
    }

    // The record into a room at a place, where it fits; no other byte changes.
    pub fn write(self, room: &mut [u8], at: usize)
        ensures { room.new ≡ stored cut_size room.old at (cut_bytes self) }
    {
        if le::has(room.len(), at, Self::SIZE) {
            self.write_here(room, at);
        }
    }

    fn write_here(self, room: &mut [u8], at: usize)
        requires { at + cut_size ≤ length room.old }
        ensures { room.new ≡ patch room.old at (cut_bytes self) }
    {
        le::put_words(
            room,
            at,
            &[
                self.process_mode,
                self.wave_form,
                self.prf1,
                self.prf2,
                self.unfold_mode,
                self.azimuth,
                self.elevation,
                self.start_angle,
                self.end_angle,
                self.angular_resolution,
                self.scan_speed,
                self.log_resolution,
                self.doppler_resolution,
                self.maximum_range1,
                self.maximum_range2,
                self.start_range,
                self.sample1,
                self.sample2,
                self.phase_mode,
                self.atmospheric_loss,
                self.nyquist_speed,
            ],
        );
        le::put_u64(room, at + Self::MOMENTS_MASK, self.moments_mask);
        le::put_u64(room, at + Self::SIZE_MASK, self.size_mask);
        le::put_words(
            room,
            at + Self::FILTER_MASK,
            &[
                self.filter_mask,
                self.sqi_threshold,
                self.sig_threshold,
                self.csr_threshold,
                self.log_threshold,
                self.cpa_threshold,
                self.pmi_threshold,
                self.dplog_threshold,
                self.thresholds_reserved,
                self.db_mask,
                self.dbz_mask,
                self.velocity_mask,
                self.spectrum_width_mask,
                self.dp_mask,
            ],
        );
        le::put_bytes(room, at + Self::MASK_RESERVED, self.mask_reserved);
        le::put_words(
            room,
            at + Self::SCAN_SYNC,
            &[self.scan_sync, self.direction],
        );
        le::put_halves(
            room,
            at + Self::CLUTTER_CLASSIFIER,
            &[
                self.clutter_classifier,
                self.clutter_filter,
                self.clutter_notch_width,
                self.clutter_window,
            ],
        );
        le::put_bytes(room, at + Self::RESERVED, self.reserved);
    }

    // The first broken clause of the first broken rule of the block.
    pub fn check(self) -> Result<(), Clause>
        ensures { result ≡ cut_check self }
    {
        rule(
            process_mode_ok(self.process_mode),
            9,
            Self::PROCESS_MODE as u8,
            4,
        )?;
        rule(wave_form_ok(self.wave_form), 9, Self::WAVE_FORM as u8, 4)?;
        rule(
            unfold_mode_ok(self.unfold_mode),
            9,
            Self::UNFOLD_MODE as u8,
            4,
        )?;
        rule(
            resolution_ok(self.log_resolution),
            9,
            Self::LOG_RESOLUTION as u8,
            4,
        )?;
        rule(
            resolution_ok(self.doppler_resolution),
            9,
            Self::DOPPLER_RESOLUTION as u8,
            4,
        )?;
        rule(phase_mode_ok(self.phase_mode), 9, Self::PHASE_MODE as u8, 4)
    }
}

// One function a range: each rule of a field is decided by a match with ranges, and no range of a match is a parameter.
// Number 9 (table 2-5): the first of its six fields.
fn process_mode_ok(x: u32) -> bool
    ensures { result ≡ among (pos 1) (pos 2) (int x) }
{
    match x {
        1..=2 => true,
        _ => false,
    }
}

// Number 9.
fn wave_form_ok(x: u32) -> bool
    ensures { result ≡ among (pos 0) (pos 6) (int x) }
{
    match x {
        0..=6 => true,
        _ => false,
    }
}

// Number 9.
fn unfold_mode_ok(x: u32) -> bool
    ensures { result ≡ among (pos 1) (pos 4) (int x) }
{
    match x {
        1..=4 => true,
        _ => false,
    }
}

// Number 9: the log and the Doppler resolution.
fn resolution_ok(x: u32) -> bool
    ensures { result ≡ among (pos 1) (pos 5000) (int x) }
{
    match x {
        1..=5000 => true,
        _ => false,
    }
}

// Number 9.
fn phase_mode_ok(x: u32) -> bool
    ensures { result ≡ among (pos 1) (pos 3) (int x) }
{
    match x {
        1..=3 => true,
        _ => false,
    }
}
