// Numbers in text: of a field, with its bytes, and in hundredths.
use citing::Field;
use printing::size;
use std::fmt;

// The number of a field. One of two bytes is a SHORT, any other an INT.
pub(crate) fn number_of(f: Field) -> i32 {
    match f.size {
        2 => i32::from(le::i16_of((f.found % 0x1_0000) as u16)),
        _ => le::i32_of(f.found),
    }
}

// Hundredths by sign and size, with two decimals. Zero has no sign.
#[derive(Clone, Copy)]
pub(crate) struct Hundredths {
    pub(crate) negative: bool,
    pub(crate) size: u64,
}

impl From<i32> for Hundredths {
    fn from(z: i32) -> Hundredths {
        Hundredths {
            negative: z < 0,
            size: size(z),
        }
    }
}

impl fmt::Display for Hundredths {
    fn fmt<W: fmt::Write>(&self, f: &mut fmt::Formatter<W>) -> fmt::Result {
        let sign = if self.negative && 0 < self.size {
            "-"
        } else {
            ""
        };
        write!(f, "{sign}{}.{:02}", self.size / 100, self.size % 100)
    }
}

// The bytes of a field in file order, which is the lowest first.
#[derive(Clone, Copy)]
pub(crate) struct Bytes(pub(crate) Field);

impl fmt::Display for Bytes {
    fn fmt<W: fmt::Write>(&self, f: &mut fmt::Formatter<W>) -> fmt::Result {
        for byte in self.0.found.to_le_bytes().iter().take(self.0.size) {
            write!(f, " {byte:02X}")?;
        }
        Ok(())
    }
}
