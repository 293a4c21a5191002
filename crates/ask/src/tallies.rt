// The tally of a cut and a type in a wedge: how many whole radials there carry the type, how many of them have a spot blank, and
// the kinds of their gates.
ghost use Rattle.std.specs.Prelude.{cond, ◌≡◌, ◌+◌, ◌<◌, ◌^◌, eqb};
ghost use Rattle.radial.specs.Radial.{radial_at};
ghost use Rattle.gates.specs.Counting.{total_of};
ghost use Rattle.reading.specs.Reading.{stop};
ghost use Rattle.ask.specs.Tallies.{no_sums, added, carried, tally_one, tally_of, cut_accepted, told_tally, tally_told, tally_answer};

use crate::places::Where;
use crate::{answers, places};
use cut::Cut;
use gates::Counts;
use moment::Moment;
use radial::Radial;
use reading::{Onward, Stretch};
use refusal::Refusal;
use walk::due::{Walk, cut_place};
use wedge::Wedge;

// What is counted: the radials, those of them whose spot blank is 1, and the gates by their kinds.
#[derive(Clone, Copy)]
pub struct Sums {
    pub radials: u64,
    pub blanks: u64,
    pub counts: Counts,
}

// The wedge as it was asked, and what was counted in it.
#[derive(Clone, Copy)]
pub struct Tally {
    pub wedge: Wedge,
    pub sums: Sums,
}

fn none() -> Sums
    ensures { result ≡ no_sums }
{
    Sums {
        radials: 0,
        blanks: 0,
        counts: Counts::none(),
    }
}

// One field of the header, which is not decoded for it.
fn blank(b: &[u8]) -> u64
    ensures { result ≡ cond (eqb (radial_at b.now 0).spot_blank 1) 1 0 }
{
    (le::u32_at(b, Radial::SPOT_BLANK) == 1) as u64
}

// What a radial adds by the moment that was found in it.
fn carry(b: &[u8], at: Where) -> Sums
    ensures { result ≡ carried b.now at }
{
    match at {
        Where::At(_, p) => {
            let h = Moment::read(b, p);
            Sums {
                radials: 1,
                blanks: blank(b),
                counts: gates::counts_of(moments::data(b, p), h.bin_length, answers::coding(h)),
            }
        }
        Where::NoRadial => none(),
        Where::NoMoment => none(),
    }
}

// What a whole radial adds to the tally of a cut and type in a wedge. In one of another cut or outside the wedge no moment is
// looked for.
fn one(file: &[u8], cut: u32, t: u32, wedge: Wedge, s: Stretch) -> Sums
    ensures { result ≡ tally_one file.now cut t wedge s }
{
    let b = reading::own(file, s);
    if s.cut == cut && wedge.holds(le::u32_at(b, Radial::AZIMUTH)) {
        carry(b, places::in_stretch(b, s, t))
    } else {
        none()
    }
}

// The caller has seen that no sum is too large.
fn plus(a: Sums, b: Sums) -> Sums
    requires { (a.radials + b.radials < 2 ^ 64) × ((a.blanks + b.blanks < 2 ^ 64) × (total_of a.counts + total_of b.counts < 2 ^ 64)) }
    ensures { result ≡ added a b }
{
    let x = a.counts;
    let y = b.counts;
    Sums {
        radials: a.radials + b.radials,
        blanks: a.blanks + b.blanks,
        counts: Counts {
            below: x.below + y.below,
            folded: x.folded + y.folded,
            not_scanned: x.not_scanned + y.not_scanned,
            unknown: x.unknown + y.unknown,
            reserved: x.reserved + y.reserved,
            value: x.value + y.value,
            class: x.class + y.class,
        },
    }
}

// Whether a cut's block is among the blocks that a walk has accepted.
#[tactic(auto, using(std::proofs::lemmas::Bool::Decides::nat_tests), unfolding(crate::specs::Tallies::cut_accepted, rules::specs::Ranges::within))]
fn accepted(w: Walk, cut: u32) -> bool
    ensures { result ≡ cut_accepted w cut }
{
    1 <= cut && cut <= w.plan.cuts && cut_place(cut) + Cut::SIZE <= w.at
}

#[tactic(auto, using(std::proofs::lemmas::Bool::Decides::nat_tests), unfolding(crate::specs::Tallies::tally_told))]
fn told(accepted: bool, t: Tally) -> Result<Tally, Refusal>
    ensures { told_tally result ≡ tally_told accepted t }
{
    if !accepted {
        Err(Refusal::NoRadial)
    } else if t.sums.radials == 0 {
        Err(Refusal::NoMoment)
    } else {
        Ok(t)
    }
}

// One pass over the whole radials.
fn tally_in(file: &[u8], cut: u32, t: u32, wedge: Wedge) -> Result<Tally, Refusal>
    ensures { told_tally result ≡ tally_told (cut_accepted (stop file.now) cut) (tally_of file.now cut t wedge) }
{
    let mut w = Walk::begin();
    let mut so_far = none();
    loop {
        match reading::advance(file, w) {
            Onward::Whole(s, n) => {
                so_far = plus(so_far, one(file, cut, t, wedge, s));
                w = n;
            }
            Onward::Stopped(v) => {
                return told(
                    accepted(v, cut),
                    Tally {
                        wedge,
                        sums: so_far,
                    },
                );
            }
        }
    }
}

// The tally of a cut and a type in a wedge; from 0 to 0, or between any other two equal ends, of the whole cut.
#[tactic(auto, unfolding(crate::specs::Tallies::tally_answer))]
pub fn tally_of(file: &[u8], cut: u32, t: u32, wedge: Wedge) -> Result<Tally, Refusal>
    ensures { told_tally result ≡ tally_answer file.now cut t wedge }
{
    if wedge.ok() {
        tally_in(file, cut, t, wedge)
    } else {
        Err(Refusal::NoWedge)
    }
}
