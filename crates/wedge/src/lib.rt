// A wedge of azimuths, and whether an azimuth lies in it (document 02, #114): by the exact value of the single, on its bits and with
// whole numbers alone.
#![tactic(auto)]

ghost use Rattle.std.specs.Prelude.{◌≡◌, true, Float};
ghost use Rattle.std.specs.Float.{binary32};
ghost use Rattle.std.specs.Float.Ieee.{of_bits};
ghost use Rattle.rules.specs.Ranges.{azimuth_bits};
ghost use Rattle.wedge.specs.Wedge.{wedge_ok, Whole, turned, between, in_wedge};

use rules::angles;

// From the start, counted in, to the end, left out, in hundredths of a degree; through north where the end is not above the
// start, and the full circle where the two are equal.
#[derive(Clone, Copy)]
pub struct Wedge {
    pub start: u32,
    pub end: u32,
}

impl Wedge {
    // Number 61: start and end are 0..35,999.
    pub fn ok(self) -> bool
        ensures { result ≡ wedge_ok self }
    {
        match self.start {
            0..=35999 => match self.end {
                0..=35999 => true,
                _ => false,
            },
            _ => false,
        }
    }

    // Whether the azimuth with these bits lies in it. What is no azimuth lies in no wedge.
    pub fn holds(self, bits: u32) -> bool
        ensures { result ≡ in_wedge self bits }
    {
        angles::azimuth_ok(bits) && self.spans(hundredths(bits))
    }

    // By the whole hundredths of a value: nothing lies between what these and what the value itself reach.
    fn spans(self, h: u32) -> bool
        ensures { (x : Float) → Whole x h → result ≡ between self.start self.end x }
    {
        if self.start < self.end {
            self.start <= h && h < self.end
        } else {
            self.start <= h || h < self.end
        }
    }
}

// The whole hundredths of a degree of an azimuth; of 360, which counts as 0, none. Below 2 to the power -7 there are none either,
// and minus zero has none. From there to 360 the significand has 24 digits, and a hundred times it fits.
fn hundredths(bits: u32) -> u32
    requires { azimuth_bits bits ≡ true }
    ensures { Whole (turned (of_bits binary32 bits)) result }
{
    match bits {
        0x3C00_0000..=0x43B3_FFFF => {
            (100 * (0x80_0000 + bits % 0x80_0000)) >> (150 - bits / 0x80_0000)
        }
        _ => 0,
    }
}
