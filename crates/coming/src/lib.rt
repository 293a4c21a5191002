// Whether what a volume still has to have can come (document 02, #110): the moments of a radial, and the radials after it. No sum
// and no product here can wrap, whatever the arguments.
#![tactic(auto)]

ghost use Rattle.std.specs.Prelude.{◌≡◌, ◌-◌, ◌*◌, ◌≤◌, leb};
ghost use Rattle.std.specs.Int.Count.{ones};
ghost use Rattle.coming.specs.Moments.{lacks as lacks_of, can_fill, fills as fills_of, moments_can};
ghost use Rattle.coming.specs.Radials.{radials_can_after};

// The bits of a that b lacks.
fn lacks(a: u64, b: u64) -> u64
    ensures { result ≡ lacks_of a b }
{
    a & (a ^ b)
}

// How many bits of x are set.
fn ones_of(x: u64) -> usize
    ensures { result ≡ ones x }
{
    x.count_ones() as usize
}

// k moments, of n types, n1 of them of one byte a gate and the others of two, can have r bytes of data.
#[tactic(auto, using(std::proofs::lemmas::Bool::Decides::nat_tests), unfolding(crate::specs::Moments::can_fill))]
fn can_fill(n: usize, n1: usize, k: usize, r: usize) -> bool
    requires { n1 ≤ n }
    ensures { result ≡ can_fill n1 (n - n1) k r }
{
    // none is longer than 32,768 bytes
    if n < k || k < r.div_ceil(32768) {
        false
    } else if k <= r / 2 {
        // two bytes for each are enough, whatever their types
        n1 != 0 || r % 2 == 0
    } else {
        k <= r && k.saturating_sub(n1) <= r - k
    }
}

// Some `todo` moments, of different types that the mask has and that were not seen, have `rest` bytes of data.
fn fills(mask: u64, sizes: u64, seen: u64, todo: usize, rest: usize) -> bool
    ensures { result ≡ fills_of mask sizes seen todo rest }
{
    let free = lacks(mask, seen);
    let one = lacks(free, sizes);
    let n = ones_of(free);
    let n1 = ones_of(one);
    can_fill(n, n1, todo, rest)
}

// The same with their headers, 32 bytes each, in what is left of the radial's data.
#[tactic(auto, using(std::proofs::lemmas::Bool::Decides::nat_tests), unfolding(crate::specs::Moments::moments_can))]
pub fn moments_can(mask: u64, sizes: u64, seen: u64, todo: usize, left: usize) -> bool
    ensures { result ≡ moments_can mask sizes seen todo left }
{
    todo <= left / 32 && fills(mask, sizes, seen, todo, left - 32 * todo)
}

// Behind a radial header, by its number in the cut and its sequence: the cut's closing radial can come, where this is not it, and two
// radials in each later cut.
#[tactic(auto, using(std::proofs::lemmas::Bool::Decides::nat_tests), unfolding(crate::specs::Radials::radials_can_after))]
pub fn radials_can_after(cuts: u32, cut: u32, closes: bool, number: usize, sequence: usize) -> bool
    ensures { result ≡ radials_can_after cuts cut closes number sequence }
{
    let later = cuts.saturating_sub(cut) as usize;
    if 32768 < later {
        return false;
    }
    let spare = 65536 - 2 * later;
    if closes {
        sequence <= spare
    } else {
        number < 1000 && sequence < spare
    }
}
