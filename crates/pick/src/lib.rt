// Only the moments asked for (document 02, #111): from a complete volume, the volume with its moments of the wanted types and no others.
// All or nothing: one pass over the blocks decides everything; one over the headers then lays the volume down, each wanted moment in one
// run.
#![tactic(auto)]

ghost use Rattle.pick.specs.Pick.{Picks};

mod keep;
mod lay;
mod plan;

use crate::lay::lay;
use crate::plan::{Plan, plan_of};

#[derive(Clone, Copy)]
pub enum Picked {
    // The length of the volume at the front of the room.
    Written(usize),
    // The refusal's number and place.
    Refused(u32, usize),
}

// Bit t - 1 of the mask is type t.
pub fn pick(file: &[u8], wanted: u64, room: &mut [u8]) -> Picked
    ensures { Picks file.now wanted room.old result room.new }
{
    match plan_of(file, wanted) {
        Plan::Fits { radials, size } => {
            if room.len() < size {
                return Picked::Refused(33, 0);
            }
            lay(file, wanted, radials, room);
            Picked::Written(size)
        }
        Plan::Empty(place) => Picked::Refused(60, place),
        Plan::Unfinished => Picked::Refused(36, 0),
    }
}
