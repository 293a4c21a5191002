// What is to be written, or why nothing is: found in one pass over the blocks.
ghost use Rattle.std.specs.Prelude.{◌&&◌, cond, ◌≡◌, eqb, leb, length, Some, None};
ghost use Rattle.walk.specs.Due.{is_end};
ghost use Rattle.pick.specs.Pick.{or_else, plan_by, plan_of};

use crate::keep::kept_of;
use crate::lay::first_radial;
use radial::Radial;
use reading::{Onward, Stretch};
use walk::due::{Walk, is_end};

#[derive(Clone, Copy)]
pub(crate) enum Plan {
    // Every radial has a wanted moment: how many radials there are, and how many bytes the volume has.
    Fits { radials: usize, size: usize },
    // The place of the first radial that has none.
    Empty(usize),
    // The file is not complete.
    Unfinished,
}

// The first radial without a wanted moment: the one that was found, or else this, where it has none.
fn first_empty(found: Option<Stretch>, moments: usize, s: Stretch) -> Option<Stretch>
    ensures { result ≡ or_else found (cond (eqb moments 0) (Some s) None) }
{
    match found {
        Some(_) => found,
        None => {
            if moments == 0 {
                return Some(s);
            }
            found
        }
    }
}

// Whether a file is complete, by the walk at which its reading stops: nothing is due, and no byte follows.
#[tactic(auto, using(std::proofs::lemmas::Bool::Decides::nat_tests))]
fn is_complete(file: &[u8], stop: Walk) -> bool
    ensures { result ≡ (is_end stop.due && leb (length file.now) stop.at) }
{
    let due = stop.due;
    is_end(due) && file.len() <= stop.at
}

// What is to be done with a complete file, by the first radial that has no wanted moment.
fn plan_by(empty: Option<Stretch>, radials: usize, size: usize) -> Plan
    ensures { result ≡ plan_by empty radials size }
{
    match empty {
        Some(s) => Plan::Empty(s.start),
        None => Plan::Fits { radials, size },
    }
}

pub(crate) fn plan_of(file: &[u8], wanted: u64) -> Plan
    ensures { result ≡ plan_of wanted file.now }
{
    let mut w = Walk::begin();
    let mut radials = 0;
    let mut size = 0;
    let mut empty = None;
    loop {
        match reading::advance(file, w) {
            Onward::Whole(s, n) => {
                let kept = kept_of(reading::own(file, s), wanted);
                empty = first_empty(empty, kept.moments, s);
                size += Radial::SIZE + kept.bytes;
                radials += 1;
                w = n;
            }
            Onward::Stopped(n) => {
                if is_complete(file, n) {
                    return plan_by(empty, radials, first_radial(file) + size);
                }
                return Plan::Unfinished;
            }
        }
    }
}
