// What the bytes of an index say by themselves: its first byte tells which of the two forms it has (document 02, #106), and with
// it where everything stands.
ghost use Rattle.std.specs.Prelude.{◌≡◌, ◌≤◌};
ghost use Rattle.index.specs.Forms.{old_cuts, radials_at, place_said};

// The number of cuts in the old form; 0 tells the new one.
fn old_cuts(index: &[u8]) -> u8
    ensures { result ≡ old_cuts index.now }
{
    index.first().copied().unwrap_or(0)
}

// Where the number of radials stands, ahead of their places: at the farthest behind the counts of 65,535 cuts, the most that two bytes
// say, so that no sum is too large.
fn radials_at(index: &[u8]) -> usize
    ensures { (result ≡ radials_at index.now) × (result ≤ 131073) }
{
    let cuts = old_cuts(index);
    if cuts == 0 {
        3 + 2 * (le::u16_at(index, 1) as usize)
    } else {
        1 + 2 * (cuts as usize)
    }
}

// Where the radial with a sequence number is, from 1. Any bytes are taken for an index, and any number for a radial's.
pub fn find(index: &[u8], sequence: usize) -> Option<usize>
    ensures { result ≡ place_said index.now sequence }
{
    if sequence == 0 {
        return None;
    }
    let at = radials_at(index);
    if (le::u32_at(index, at) as usize) < sequence {
        return None;
    }
    Some(le::u64_at(index, at + 4 + 8 * (sequence - 1)) as usize)
}
