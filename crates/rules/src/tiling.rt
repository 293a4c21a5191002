// Tiling (document 01): how many moments a radial has, and how they fill its data.
ghost use Rattle.std.specs.Prelude.{◌≡◌, ◌%◌, eqb, pos};
ghost use Rattle.le.specs.Le.{int};
ghost use Rattle.rules.specs.Ranges.{among};
ghost use Rattle.rules.specs.Check.{breaks};
ghost use Rattle.rules.specs.Tiling.{moment_number_clauses, tiles, length_clauses};

// Which clause of number 19 (table 3-1) a moment number breaks first.
pub fn moment_number_breaks(left: u32, x: u32) -> u8
    ensures { result ≡ breaks (moment_number_clauses left x) }
{
    match x {
        1..=64 => if 33 * x <= left { 0 } else { 2 },
        _ => 1,
    }
}

fn length_in_range(x: u32) -> bool
    ensures { result ≡ among (pos 1) (pos 32768) (int x) }
{
    match x {
        1..=32768 => true,
        _ => false,
    }
}

fn tiles_ok(todo: usize, left: usize, x: u32) -> bool
    ensures { result ≡ tiles todo left x }
{
    let block = 32 + (x as usize);
    if todo <= 1 {
        return block == left;
    }
    if left < block {
        return false;
    }
    todo - 1 <= (left - block) / 33
}

// A multiple of bin length; of 0, only 0 is one. The lengths that a gate can have are told with no division.
fn multiple(bin: u16, x: u32) -> bool
    ensures { result ≡ eqb (x % bin) 0 }
{
    match bin {
        0 => x == 0,
        1 => true,
        2 => x % 2 == 0,
        _ => x % (bin as u32) == 0,
    }
}

// Which clause of number 24 (table 3-2) a length breaks first.
pub fn length_breaks(todo: usize, left: usize, bin: u16, x: u32) -> u8
    ensures { result ≡ breaks (length_clauses todo left bin x) }
{
    if length_in_range(x) {
        if multiple(bin, x) {
            if tiles_ok(todo, left, x) { 0 } else { 3 }
        } else {
            2
        }
    } else {
        1
    }
}
