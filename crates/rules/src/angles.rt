// The four angles (document 01, numbers 3, 4, 15 and 16), each decided on the bits of its IEEE single with no float operation:
// a damaged header may hold a signalling NaN, and to compare one is an invalid operation (document 02, #105). Each has the run of
// bits with the sign clear, then the run with the sign set, up to the bits of its ends.
ghost use Rattle.std.specs.Prelude.{◌≡◌};
ghost use Rattle.rules.specs.Ranges.{latitude_bits, longitude_bits, azimuth_bits, elevation_bits};

// One function an angle: the ranges of a match are no parameters.
// Number 3 (table 2-3): -90..90.
pub fn latitude_ok(bits: u32) -> bool
    ensures { result ≡ latitude_bits bits }
{
    match bits {
        0..=0x42B4_0000 | 0x8000_0000..=0xC2B4_0000 => true,
        _ => false,
    }
}

// Number 4 (table 2-3): -180..180.
pub fn longitude_ok(bits: u32) -> bool
    ensures { result ≡ longitude_bits bits }
{
    match bits {
        0..=0x4334_0000 | 0x8000_0000..=0xC334_0000 => true,
        _ => false,
    }
}

// Number 15 (table 3-1): 0..360; minus zero is zero.
pub fn azimuth_ok(bits: u32) -> bool
    ensures { result ≡ azimuth_bits bits }
{
    match bits {
        0..=0x43B4_0000 => true,
        0x8000_0000 => true,
        _ => false,
    }
}

// Number 16 (table 3-1): -2..90.
pub fn elevation_ok(bits: u32) -> bool
    ensures { result ≡ elevation_bits bits }
{
    match bits {
        0..=0x42B4_0000 | 0x8000_0000..=0xC000_0000 => true,
        _ => false,
    }
}
