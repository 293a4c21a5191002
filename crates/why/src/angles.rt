// An angle in hundredths of a degree, from the bits of its IEEE single with no float operation.
ghost use Rattle.std.specs.Prelude.{◌<◌};

use crate::numbers::Hundredths;
use std::fmt;

#[derive(Clone, Copy)]
pub(crate) enum Angle {
    // Below 1,048,576 degrees: its size in whole hundredths, cut, and whether that is all of it.
    Hundredths {
        negative: bool,
        size: u32,
        exact: bool,
    },
    // A larger one, and an infinite one, each with whether it is negative.
    Beyond(bool),
    Infinite(bool),
    NoNumber,
}

// A product of 100 and a mantissa, over two to a power below 32.
fn cut(negative: bool, product: u32, power: u32) -> Angle
    requires { power < 32 }
{
    let size = product >> power;
    Angle::Hundredths {
        negative,
        size,
        exact: size << power == product,
    }
}

// With a mantissa m of 24 bits and an exponent e the size is m * 2^(e - 150), so its hundredths are 100 * m over 2^(150 - e). Below
// exponent 119 that power is 32 or more, which leaves none of the product's 31 bits.
pub(crate) fn angle_of(bits: u32) -> Angle {
    let negative = 0x8000_0000 <= bits;
    let size = bits % 0x8000_0000;
    let rest = size % 0x80_0000;
    let exponent = size / 0x80_0000;
    match exponent {
        0..=118 => Angle::Hundredths {
            negative,
            size: 0,
            exact: size == 0,
        },
        119..=146 => cut(negative, 100 * (0x80_0000 + rest), 150 - exponent),
        147..=254 => Angle::Beyond(negative),
        _ if rest == 0 => Angle::Infinite(negative),
        _ => Angle::NoNumber,
    }
}

impl fmt::Display for Angle {
    fn fmt<W: fmt::Write>(&self, f: &mut fmt::Formatter<W>) -> fmt::Result {
        match *self {
            Angle::Hundredths {
                negative,
                size,
                exact,
            } => {
                let cut = match (exact, negative) {
                    (true, _) => "",
                    (_, true) => "a little under ",
                    _ => "a little over ",
                };
                let size = u64::from(size);
                write!(f, "{cut}{}", Hundredths { negative, size })
            }
            Angle::Beyond(true) => write!(f, "under -1000000"),
            Angle::Beyond(false) => write!(f, "over 1000000"),
            Angle::Infinite(true) => write!(f, "-infinity"),
            Angle::Infinite(false) => write!(f, "infinity"),
            Angle::NoNumber => write!(f, "no number"),
        }
    }
}
