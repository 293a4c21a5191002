// The one range that fields of two blocks share.
ghost use Rattle.std.specs.Prelude.{◌≡◌};
ghost use Rattle.le.specs.Le.{int};
ghost use Rattle.rules.specs.Ranges.{not_below_zero};

// Numbers 7 (table 2-4, start time) and 17 (table 3-1, seconds): the sign bit is clear.
pub fn not_below_zero(x: u32) -> bool
    ensures { result ≡ not_below_zero (int x) }
{
    match x {
        0..=0x7fff_ffff => true,
        _ => false,
    }
}
