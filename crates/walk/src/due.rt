// Which block is due, where, and what the blocks before it have settled.
ghost use Rattle.std.specs.Prelude.{◌≡◌};
ghost use Rattle.walk.specs.Due.{size_at, is_end, ends_radial, at_start, radial_due, moment_due, cut_place};

use cut::Cut;
use generic::Generic;
use moment::{Moment, MomentDue};
use radial::{Radial, RadialDue};
use site::Site;
use task::Task;

#[derive(Clone, Copy)]
pub enum Due {
    Generic,
    Site,
    Task,
    Cut,
    Radial,
    Moment,
    Data,
    Nothing,
}

// What the task says.
#[derive(Clone, Copy)]
pub struct Plan {
    pub scan_type: u32,
    pub cuts: u32,
}

// The cut that radials belong to, from 1, the whole radials, and the radials of the cut.
#[derive(Clone, Copy)]
pub struct Count {
    pub cut: u32,
    pub whole: usize,
    pub in_cut: usize,
}

// The present radial: its place, state and sequence number, and its cut's masks.
#[derive(Clone, Copy)]
pub struct Present {
    pub start: usize,
    pub state: u32,
    pub sequence: usize,
    pub mask: u64,
    pub sizes: u64,
}

// What is still to come: cut blocks or moments; the radial's bytes of data, the types that it has shown; and the length
// of the data that is due.
#[derive(Clone, Copy)]
pub struct Rest {
    pub todo: usize,
    pub left: usize,
    pub seen: u64,
    pub length: usize,
}

#[derive(Clone, Copy)]
pub struct Walk {
    pub due: Due,
    pub at: usize,
    pub plan: Plan,
    pub count: Count,
    pub present: Present,
    pub rest: Rest,
}

impl Walk {
    // Before the first block.
    pub fn begin() -> Self
        ensures { result ≡ at_start }
    {
        Self {
            due: Due::Generic,
            at: 0,
            plan: Plan {
                scan_type: 0,
                cuts: 0,
            },
            count: Count {
                cut: 0,
                whole: 0,
                in_cut: 0,
            },
            present: Present {
                start: 0,
                state: 0,
                sequence: 0,
                mask: 0,
                sizes: 0,
            },
            rest: Rest {
                todo: 0,
                left: 0,
                seen: 0,
                length: 0,
            },
        }
    }

    // What a radial's rules ask of the blocks before it.
    pub fn radial_due(self) -> RadialDue
        ensures { result ≡ radial_due self }
    {
        RadialDue {
            scan_type: self.plan.scan_type,
            cuts: self.plan.cuts,
            cut: self.count.cut,
            before: self.count.whole,
            in_cut: self.count.in_cut,
        }
    }

    // What a moment's rules ask of the blocks before it.
    pub fn moment_due(self) -> MomentDue
        ensures { result ≡ moment_due self }
    {
        MomentDue {
            mask: self.present.mask,
            sizes: self.present.sizes,
            seen: self.rest.seen,
            left: self.rest.left,
            todo: self.rest.todo,
        }
    }
}

// How many bytes the due block has; data has the length that its header said.
pub fn size_at(due: Due, length: usize) -> usize
    ensures { result ≡ size_at due length }
{
    match due {
        Due::Generic => Generic::SIZE,
        Due::Site => Site::SIZE,
        Due::Task => Task::SIZE,
        Due::Cut => Cut::SIZE,
        Due::Radial => Radial::SIZE,
        Due::Moment => Moment::SIZE,
        Due::Data => length,
        Due::Nothing => 0,
    }
}

// Whether the volume is over.
pub fn is_end(due: Due) -> bool
    ensures { result ≡ is_end due }
{
    matches!(due, Due::Nothing)
}

// Whether the due block is the last of its radial.
pub fn ends_radial(due: Due, todo: usize) -> bool
    ensures { result ≡ ends_radial due todo }
{
    match due {
        Due::Data => todo == 0,
        _ => false,
    }
}

// Where a cut's block stands: after the generic, site and task blocks, and the cuts before it.
pub fn cut_place(cut: u32) -> usize
    ensures { result ≡ cut_place cut }
{
    if cut == 0 {
        return Generic::SIZE + Site::SIZE + Task::SIZE;
    }
    Generic::SIZE + Site::SIZE + Task::SIZE + Cut::SIZE * ((cut - 1) as usize)
}
