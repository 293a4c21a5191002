// What the reader says of a record where it is due, with no file to find it in: for whoever makes the blocks and the walk.
// Nothing is stored and no room is held. A walk of 2^63 bytes or more is no room's (document 01, number 37).
ghost use Rattle.std.specs.Prelude.{◌≡◌, ◌+◌};
ghost use Rattle.reading.specs.Step.{take_generic, take_site, take_task, take_data, say_cut, say_by_masks, say_moment};
ghost use Rattle.reading.specs.Take.{in_room};

use crate::step::{Step, hoping, settle, some_moment};
use cut::Cut;
use generic::Generic;
use moment::Moment;
use radial::Radial;
use site::Site;
use task::Task;
use walk::due::Walk;
use walk::{after, hope};

// The most bytes that a room has.
const MOST: usize = 0x7fff_ffff_ffff_ffff;

pub fn generic(r: Generic, w: Walk) -> Step
    ensures { result ≡ in_room w.at (take_generic r w) }
{
    let at = w.at;
    if MOST < at {
        return Step::Refused(37, 0);
    }
    settle(r.check(), at, after::generic(w, at + Generic::SIZE))
}

pub fn site(r: Site, w: Walk) -> Step
    ensures { result ≡ in_room w.at (take_site r w) }
{
    let at = w.at;
    if MOST < at {
        return Step::Refused(37, 0);
    }
    settle(r.check(), at, after::site(w, at + Site::SIZE))
}

pub fn task(r: Task, w: Walk) -> Step
    ensures { result ≡ in_room w.at (take_task r w) }
{
    let at = w.at;
    if MOST < at {
        return Step::Refused(37, 0);
    }
    settle(
        r.check(),
        at,
        after::task(r.scan_type, r.cut_number, w, at + Task::SIZE),
    )
}

pub fn cut(r: Cut, w: Walk) -> Step
    ensures { result ≡ in_room w.at (say_cut r w) }
{
    let at = w.at;
    if MOST < at {
        return Step::Refused(37, 0);
    }
    let says = settle(r.check(), at, after::cut(w, at + Cut::SIZE));
    hoping(some_moment(r), at, says)
}

// By the masks of the cut that the radial belongs to.
pub fn radial(r: Radial, mask: u64, sizes: u64, w: Walk) -> Step
    ensures { result ≡ in_room w.at (say_by_masks r mask sizes w) }
{
    let at = w.at;
    if MOST < at {
        return Step::Refused(37, 0);
    }
    let next = after::radial(r, mask, sizes, w, at + Radial::SIZE);
    let says = settle(r.check(w.radial_due()), at, next);
    hoping(hope::radial(next), at, says)
}

pub fn moment(r: Moment, w: Walk) -> Step
    ensures { result ≡ in_room w.at (say_moment r w) }
{
    let at = w.at;
    if MOST < at {
        return Step::Refused(37, 0);
    }
    let next = after::moment(r, w, at + Moment::SIZE);
    let says = settle(r.check(w.moment_due()), at, next);
    hoping(hope::moments(next), at, says)
}

// Data has the length that the walk says, which may be any: the walk counts up to its end.
pub fn data(w: Walk) -> Step
    ensures { result ≡ in_room (w.at + w.rest.length) (take_data w) }
{
    let at = w.at;
    let length = w.rest.length;
    if le::has(MOST, at, length) {
        return Step::Took(after::data(w, at + length));
    }
    Step::Refused(37, 0)
}
