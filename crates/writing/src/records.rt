// The records that the program hands to the writer: all zeros but for the fields that a rule asks for, and a few more.
use cut::Cut;
use generic::Generic;
use moment::Moment;
use radial::Radial;
use site::Site;
use task::Task;

pub(crate) fn generic() -> Generic {
    let mut r = Generic::read(b"", 0);
    r.magic = Generic::MAGIC_WORD;
    r.major = 1;
    r.generic_type = 1;
    r
}

// Latitude 30.5, longitude 114.25.
pub(crate) fn site() -> Site {
    let mut r = Site::read(b"", 0);
    r.latitude = 0x41f4_0000;
    r.longitude = 0x42e4_8000;
    r
}

pub(crate) fn task(scan_type: u32, cuts: u32) -> Task {
    let mut r = Task::read(b"", 0);
    r.polarization = 1;
    r.scan_type = scan_type;
    r.start_time = 1445000000;
    r.cut_number = cuts;
    r
}

// Moments of type 2 have one byte a gate, those of type 4 have two.
pub(crate) fn cut() -> Cut {
    let mut r = Cut::read(b"", 0);
    r.process_mode = 1;
    r.unfold_mode = 1;
    r.log_resolution = 250;
    r.doppler_resolution = 250;
    r.phase_mode = 1;
    r.moments_mask = 10;
    r.size_mask = 8;
    r
}

// The moments of a radial: one of one-byte gates, one of two-byte gates, or both.
#[derive(Clone, Copy, PartialEq)]
pub(crate) enum Moments {
    Narrow = 1,
    Wide = 2,
    Both = 3,
}

impl Moments {
    fn bytes(self) -> u32 {
        match self {
            Moments::Narrow => 36,
            Moments::Wide => 40,
            Moments::Both => 76,
        }
    }

    fn count(self) -> u32 {
        if self == Moments::Both { 2 } else { 1 }
    }
}

// What is told apart from radial to radial.
#[derive(Clone, Copy)]
pub(crate) struct Facts {
    pub(crate) moments: Moments,
    pub(crate) state: u8,
    pub(crate) sequence: u32,
    pub(crate) number: u32,
    pub(crate) cut: u32,
}

// Azimuth 0.5, elevation 1.5.
pub(crate) fn radial(f: Facts) -> Radial {
    let mut r = Radial::read(b"", 0);
    r.state = f.state as u32;
    r.sequence = f.sequence;
    r.radial_number = f.number;
    r.elevation_number = f.cut;
    r.azimuth = 0x3f00_0000;
    r.elevation = 0x3fc0_0000;
    r.seconds = 1445000001;
    r.length_of_data = f.moments.bytes();
    r.moment_number = f.moments.count();
    r
}

// A moment of four gates, by its type and the bytes of a gate.
pub(crate) fn moment(data_type: u32, bytes: u16) -> Moment {
    let mut r = Moment::read(b"", 0);
    r.data_type = data_type;
    r.scale = 2;
    r.offset = 66;
    r.bin_length = bytes;
    r.length = 4 * (bytes as u32);
    r
}
