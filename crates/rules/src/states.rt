// Which radial states are allowed where, and how many cuts a task may have.
ghost use Rattle.std.specs.Prelude.{◌≡◌};
ghost use Rattle.rules.specs.Check.{breaks};
ghost use Rattle.rules.specs.States.{cut_number_clauses, opening as opening_of, closing as closing_of, state_ok};

// Which clause of number 8 (table 2-4) a cut number breaks first.
pub fn cut_number_breaks(scan: u32, x: u32) -> u8
    ensures { result ≡ breaks (cut_number_clauses scan x) }
{
    match x {
        1 => 0,
        2..=256 => match scan {
            2 => 2,
            _ => 0,
        },
        _ => 1,
    }
}

fn opening(scan: u32, cut: u32) -> u32
    ensures { result ≡ opening_of scan cut }
{
    match scan {
        2 | 5 => 5,
        _ => match cut {
            0..=1 => 3,
            _ => 0,
        },
    }
}

pub fn closing(scan: u32, cuts: u32, cut: u32) -> u32
    ensures { result ≡ closing_of scan cuts cut }
{
    match scan {
        2 | 5 => 6,
        _ => if cut < cuts { 2 } else { 4 },
    }
}

// Number 10 (table 3-1).
pub fn state_ok(scan: u32, cuts: u32, cut: u32, in_cut: usize, x: u32) -> bool
    ensures { result ≡ state_ok scan cuts cut in_cut x }
{
    match in_cut {
        0 => x == opening(scan, cut),
        _ => match x {
            1 => true,
            _ => x == closing(scan, cuts, cut),
        },
    }
}
