// The old file: radials one after the other (document 003, SA/SB).
ghost use Rattle.std.specs.Prelude.{◌≡◌};
ghost use Rattle.old.specs.Shelf.{shelf_ok, radials_in};

use crate::record::OldRadial;

// Number 50.
#[tactic(auto, using(std::proofs::lemmas::Bool::Decides::nat_tests), unfolding(crate::specs::Shelf::shelf_ok))]
pub fn shelf_ok(len: usize) -> bool
    ensures { result ≡ shelf_ok len }
{
    len != 0 && len % OldRadial::SIZE == 0
}

// How many radials a file of so many bytes has.
pub fn radials_in(len: usize) -> usize
    ensures { result ≡ radials_in len }
{
    len / OldRadial::SIZE
}
