// What the writer answers to a block, and the state from then on, with nothing stored: for whoever settles many blocks before the
// first byte is written. The state is taken as it is given, and of the room nothing is asked but how long it is.
ghost use Rattle.std.specs.Prelude.{◌≡◌, true, eqb, length};
ghost use Rattle.cut.specs.Cut.{cut_size};
ghost use Rattle.generic.specs.Generic.{generic_size};
ghost use Rattle.moment.specs.Moment.{moment_size};
ghost use Rattle.radial.specs.Radial.{radial_size};
ghost use Rattle.site.specs.Site.{site_size};
ghost use Rattle.task.specs.Task.{task_size};
ghost use Rattle.walk.specs.declared.due.Due.TheVariants as due;
ghost use Rattle.reading.specs.Step.{take_generic, take_site, take_task, take_data, say_cut, say_by_masks, say_moment};
ghost use Rattle.writer.specs.Put.{settled_by};

use crate::order::{Answer, Put, answer_to, next_of, refused, taken};
use cut::Cut;
use generic::Generic;
use moment::Moment;
use radial::Radial;
use reading::step::Step;
use reading::take;
use site::Site;
use task::Task;
use walk::after;
use walk::due::{Due, Walk};

fn settled(w: Walk, len: usize, kind: Due, says: Step, fits: bool, size: usize) -> Put
    ensures { result ≡ settled_by kind says fits size w len }
{
    match answer_to(w, len, kind, says, fits, size) {
        Answer::Taken => taken(next_of(says, w)),
        Answer::Refused(n, p) => refused(n, p, w),
    }
}

pub fn generic(w: Walk, room: &[u8], r: Generic) -> Put
    ensures { result ≡ settled_by due.Generic (take_generic r w) true generic_size w (length room.now) }
{
    let says = take::generic(r, w);
    settled(w, room.len(), Due::Generic, says, true, Generic::SIZE)
}

pub fn site(w: Walk, room: &[u8], r: Site) -> Put
    ensures { result ≡ settled_by due.Site (take_site r w) true site_size w (length room.now) }
{
    let says = take::site(r, w);
    settled(w, room.len(), Due::Site, says, true, Site::SIZE)
}

pub fn task(w: Walk, room: &[u8], r: Task) -> Put
    ensures { result ≡ settled_by due.Task (take_task r w) true task_size w (length room.now) }
{
    let says = take::task(r, w);
    settled(w, room.len(), Due::Task, says, true, Task::SIZE)
}

pub fn cut(w: Walk, room: &[u8], r: Cut) -> Put
    ensures { result ≡ settled_by due.Cut (say_cut r w) true cut_size w (length room.now) }
{
    let says = take::cut(r, w);
    settled(w, room.len(), Due::Cut, says, true, Cut::SIZE)
}

// By the masks of the cut that the radial belongs to.
pub fn radial(w: Walk, room: &[u8], r: Radial, mask: u64, sizes: u64) -> Put
    ensures { result ≡ settled_by due.Radial (say_by_masks r mask sizes w) true radial_size w (length room.now) }
{
    let says = take::radial(r, mask, sizes, w);
    settled(w, room.len(), Due::Radial, says, true, Radial::SIZE)
}

pub fn moment(w: Walk, room: &[u8], r: Moment) -> Put
    ensures { result ≡ settled_by due.Moment (say_moment r w) true moment_size w (length room.now) }
{
    let says = take::moment(r, w);
    settled(w, room.len(), Due::Moment, says, true, Moment::SIZE)
}

// Of data only how many bytes there are.
pub fn data(w: Walk, room: &[u8], size: usize) -> Put
    ensures { result ≡ settled_by due.Data (take_data w) (eqb size w.rest.length) size w (length room.now) }
{
    let at = w.at;
    let length = w.rest.length;
    match answer_to(
        w,
        room.len(),
        Due::Data,
        Step::Took(w),
        size == length,
        size,
    ) {
        Answer::Taken => taken(after::data(w, at + size)),
        Answer::Refused(n, p) => refused(n, p, w),
    }
}
