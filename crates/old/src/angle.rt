// The angle n * 180 / 32,768 as the bits of a single (document 02, #102).
ghost use Rattle.std.specs.Prelude.{◌≡◌};
ghost use Rattle.old.specs.Angle.{angle_bits};

// The angle is 45 * n over a power of two, so its digits are those of 45 * n, and no float operation is needed: 45 * n is shifted
// until it has the 24 digits of a single, and x is as much below the exponent that it has with no shift.
pub fn angle(n: u16) -> u32
    ensures { result ≡ angle_bits n }
{
    if n == 0 {
        return 0;
    }
    let m = 45 * (n as u32);
    let shift = m.leading_zeros() - 8;
    let x = 136 - shift;
    x * 0x80_0000 + (m << shift)
}
