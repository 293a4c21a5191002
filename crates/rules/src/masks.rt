// Masks (document 01): which types a cut has, and how many bytes a gate of each takes.
ghost use Rattle.std.specs.Prelude.{◌≡◌, pos};
ghost use Rattle.le.specs.Le.{int};
ghost use Rattle.rules.specs.Ranges.{among};
ghost use Rattle.rules.specs.Check.{breaks};
ghost use Rattle.rules.specs.Masks.{bit as bit_of, with_bit, type_clauses, bin_length_clauses};

// Whether a mask has the bit of type t.
pub fn bit(mask: u64, t: u32) -> bool
    ensures { result ≡ bit_of mask t }
{
    match t {
        1..=64 => (mask >> (t - 1)) % 2 == 1,
        _ => false,
    }
}

// The mask with the bit of type t set.
pub fn with_bit(mask: u64, t: u32) -> u64
    ensures { result ≡ with_bit mask t }
{
    match t {
        1..=64 => mask | (1 << (t - 1)),
        _ => mask,
    }
}

fn type_in_range(x: u32) -> bool
    ensures { result ≡ among (pos 1) (pos 64) (int x) }
{
    match x {
        1..=64 => true,
        _ => false,
    }
}

// Which clause of number 20 (table 3-2) a type breaks first.
pub fn type_breaks(mask: u64, seen: u64, x: u32) -> u8
    ensures { result ≡ breaks (type_clauses mask seen x) }
{
    if type_in_range(x) {
        if bit(seen, x) {
            return 2;
        }
        if bit(mask, x) { 0 } else { 3 }
    } else {
        1
    }
}

// Which clause of number 23 (table 3-2) a bin length breaks first.
pub fn bin_length_breaks(sizes: u64, t: u32, x: u16) -> u8
    ensures { result ≡ breaks (bin_length_clauses sizes t x) }
{
    if bit(sizes, t) {
        if x == 2 { 0 } else { 2 }
    } else {
        if x == 1 { 0 } else { 1 }
    }
}
