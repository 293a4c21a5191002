// Rows that somebody decoded, checked against a file's own (document 02, #112). Both lists are only read, in one pass with the
// moment's codes that ends at the first difference; no row is made, and nothing is divided.
#![tactic(auto)]

ghost use Rattle.std.specs.Prelude.{◌≡◌, cond, ◌&&◌, eqb, pos, ◌+ℤ◌};
ghost use Rattle.gates.specs.Codes.{codes_of};
ghost use Rattle.gates.specs.Gates.{hundredths_of, kind_of};
ghost use Rattle.gates.specs.Rows.{shown_of};
ghost use Rattle.ask.specs.Places.{where_is};
ghost use Rattle.decoded.specs.Decoded.{eqℤ, agreed, checked, told_compared, told_check, check_told};

use ask::places::Where;
use ask::{answers, places};
use gates::{Coding, Gate};
use moment::Moment;
use refusal::Refusal;

#[derive(Clone, Copy)]
pub enum Compared {
    // Both lists are the row.
    Same,
    // The first gate at which one of them differs from it.
    Differs(usize),
}

// ---- a gate

// 2^31 more, so that it is below 0 no longer.
fn raised(h: i32) -> u64
    ensures { pos result ≡ h +ℤ pos 2147483648 }
{
    (h as i64 + 0x8000_0000) as u64
}

// Whether a value has these hundredths. They are the nearest whole number h to 100 * (code - offset) / scale where 2 * scale * h is at
// most 200 * (code - offset) + scale, and 2 * scale * (h + 1) is above it. Both sides are raised by the same, so that nothing is below
// 0, and below the offset h's by one more, since a half goes away from zero there too.
fn is_hundredths(c: Coding, code: u16, h: i32) -> bool
    ensures { result ≡ eqℤ (hundredths_of c code) h }
{
    if c.scale == 0 {
        return h == 0;
    }
    let twice = 2 * (c.scale as u64);
    let value = 200 * (code as u64) + c.scale as u64 + twice * 0x8000_0000;
    let least = 200 * (c.offset as u64) + (code < c.offset) as u64 + twice * raised(h);
    least <= value && value - least < twice
}

// The code of a value; for any other gate the offset, which is 0 hundredths.
#[tactic(auto, using(std::proofs::lemmas::Bool::Decides::nat_tests))]
fn measured(c: Coding, kind: u8, code: u16) -> u16
    ensures { result ≡ cond (eqb kind 5) code c.offset }
{
    if kind == Gate::VALUE { code } else { c.offset }
}

// Whether a row shows a code so.
fn shows(c: Coding, code: u16, kind: u8, h: i32) -> bool
    ensures { result ≡ eqb (kind_of c code) kind && eqℤ (shown_of c code) h }
{
    let gate = gates::gate_of(c, code);
    let own = gate.kind();
    own == kind && is_hundredths(c, measured(c, own, code), h)
}

// ---- a row

// How many gates agree, from the first.
fn agree(bytes: &[u8], bin: u16, c: Coding, kinds: &[u8], hundredths: &[i32]) -> usize
    ensures { result ≡ agreed c (codes_of bin bytes.now) kinds.now hundredths.now }
{
    let n = gates::gates_in(bytes, bin)
        .min(kinds.len())
        .min(hundredths.len());
    for i in 0..n {
        if !shows(c, gates::code_at(bytes, bin, i), kinds[i], hundredths[i]) {
            return i;
        }
    }
    n
}

#[tactic(auto, using(std::proofs::lemmas::Bool::Decides::nat_tests), unfolding(crate::specs::Decoded::checked))]
fn compare(bytes: &[u8], bin: u16, c: Coding, kinds: &[u8], hundredths: &[i32]) -> Compared
    ensures { told_compared result ≡ checked c (codes_of bin bytes.now) kinds.now hundredths.now }
{
    let n = gates::gates_in(bytes, bin);
    let i = agree(bytes, bin, c, kinds, hundredths);
    if i == n && kinds.len() == n && hundredths.len() == n {
        Compared::Same
    } else {
        Compared::Differs(i)
    }
}

// ---- a file

// Whether two lists are the kinds and the hundredths of all gates of the moment of a type.
pub fn check(
    file: &[u8],
    sequence: usize,
    t: u32,
    kinds: &[u8],
    hundredths: &[i32],
) -> Result<Compared, Refusal>
    ensures { told_check result ≡ check_told file.now (where_is file.now sequence t) kinds.now hundredths.now }
{
    match places::find(file, sequence, t) {
        Where::At(s, p) => {
            let b = reading::own(file, s);
            let h = Moment::read(b, p);
            Ok(compare(
                moments::data(b, p),
                h.bin_length,
                answers::coding(h),
                kinds,
                hundredths,
            ))
        }
        Where::NoRadial => Err(Refusal::NoRadial),
        Where::NoMoment => Err(Refusal::NoMoment),
    }
}
