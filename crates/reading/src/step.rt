// One step of the walk over a file.
ghost use Rattle.std.specs.Prelude.{◌≡◌, ◌+◌, ◌≤◌, ◌<◌, ◌^◌, length};
ghost use Rattle.cut.specs.Cut.{cut_at, cut_size};
ghost use Rattle.generic.specs.Generic.{generic_at, generic_size};
ghost use Rattle.moment.specs.Moment.{moment_at, moment_size};
ghost use Rattle.radial.specs.Radial.{radial_at, radial_size};
ghost use Rattle.site.specs.Site.{site_at, site_size};
ghost use Rattle.task.specs.Task.{task_at, task_size};
ghost use Rattle.walk.specs.Due.{size_of};
ghost use Rattle.reading.specs.Step.{settle as settle_of, take_generic, take_site, take_task, cut_in, hope_after_cut, hoping as hoping_of, say_cut, say_radial, say_moment, say_block, step_of};

use cut::Cut;
use generic::Generic;
use moment::Moment;
use radial::Radial;
use rules::check::Clause;
use site::Site;
use task::Task;
use walk::due::{Due, Walk, cut_place, is_end, size_at};
use walk::{after, hope};

#[derive(Clone, Copy)]
pub enum Step {
    // The due block is there and keeps its rules: the walk after it.
    Took(Walk),
    // It is there and breaks one: the refusal's number and place.
    Refused(u32, usize),
    // This many of its bytes are missing.
    Open(usize),
    // No block is due, and no byte follows.
    Complete,
}

// A block that keeps its rules is taken.
pub(crate) fn settle(check: Result<(), Clause>, at: usize, next: Walk) -> Step
    requires { at < 2 ^ 63 }
    ensures { result ≡ settle_of check at next }
{
    match check {
        Ok(()) => Step::Took(next),
        Err(c) => Step::Refused(c.number, at + (c.place as usize)),
    }
}

// A block behind which no hope is left is refused at its first byte, where its own rules do not refuse it (document 02, #110).
pub(crate) fn hoping(hope: bool, at: usize, says: Step) -> Step
    ensures { result ≡ hoping_of hope at says }
{
    if hope {
        return says;
    }
    let Step::Took(_) = says else {
        return says;
    };
    Step::Refused(40, at)
}

// Whether a cut's moments mask has a bit: with none, no radial of it can hold a moment.
pub(crate) fn some_moment(r: Cut) -> bool
    ensures { result ≡ hope_after_cut r }
{
    0 < r.moments_mask
}

// Each block below is found in p, the file up to the block's end.
fn generic(p: &[u8], w: Walk) -> Step
    requires { length p.now ≡ w.at + generic_size }
    ensures { result ≡ take_generic (generic_at p.now w.at) w }
{
    let at = w.at;
    let r = Generic::read(p, at);
    settle(r.check(), at, after::generic(w, p.len()))
}

fn site(p: &[u8], w: Walk) -> Step
    requires { length p.now ≡ w.at + site_size }
    ensures { result ≡ take_site (site_at p.now w.at) w }
{
    let at = w.at;
    let r = Site::read(p, at);
    settle(r.check(), at, after::site(w, p.len()))
}

fn task(p: &[u8], w: Walk) -> Step
    requires { length p.now ≡ w.at + task_size }
    ensures { result ≡ take_task (task_at p.now w.at) w }
{
    let at = w.at;
    let r = Task::read(p, at);
    settle(
        r.check(),
        at,
        after::task(r.scan_type, r.cut_number, w, p.len()),
    )
}

fn cut(p: &[u8], w: Walk) -> Step
    requires { length p.now ≡ w.at + cut_size }
    ensures { result ≡ say_cut (cut_at p.now w.at) w }
{
    let at = w.at;
    let r = Cut::read(p, at);
    let says = settle(r.check(), at, after::cut(w, p.len()));
    hoping(some_moment(r), at, says)
}

fn radial(p: &[u8], w: Walk) -> Step
    requires { length p.now ≡ w.at + radial_size }
    ensures { result ≡ say_radial (radial_at p.now w.at) (cut_in p.now w) w }
{
    let at = w.at;
    let r = Radial::read(p, at);
    let place = cut_place(w.count.cut);
    let mask = le::u64_at(p, place + Cut::MOMENTS_MASK);
    let sizes = le::u64_at(p, place + Cut::SIZE_MASK);
    let next = after::radial(r, mask, sizes, w, p.len());
    let says = settle(r.check(w.radial_due()), at, next);
    hoping(hope::radial(next), at, says)
}

fn moment(p: &[u8], w: Walk) -> Step
    requires { length p.now ≡ w.at + moment_size }
    ensures { result ≡ say_moment (moment_at p.now w.at) w }
{
    let at = w.at;
    let r = Moment::read(p, at);
    let next = after::moment(r, w, p.len());
    let says = settle(r.check(w.moment_due()), at, next);
    hoping(hope::moments(next), at, says)
}

fn block(p: &[u8], w: Walk) -> Step
    requires { length p.now ≡ w.at + size_of w }
    ensures { result ≡ say_block w.due p.now w }
{
    let due = w.due;
    match due {
        Due::Generic => generic(p, w),
        Due::Site => site(p, w),
        Due::Task => task(p, w),
        Due::Cut => cut(p, w),
        Due::Radial => radial(p, w),
        Due::Moment => moment(p, w),
        Due::Data => Step::Took(after::data(w, p.len())),
        Due::Nothing => Step::Complete,
    }
}

// A block is looked at only when all its bytes are there.
pub(crate) fn step_at(file: &[u8], w: Walk) -> Step
    requires { w.at ≤ length file.now }
    ensures { result ≡ step_of file.now w }
{
    let at = w.at;
    let due = w.due;
    let length = w.rest.length;
    if is_end(due) {
        if at < file.len() {
            return Step::Refused(25, at);
        }
        return Step::Complete;
    }
    let size = size_at(due, length);
    let here = file.len() - at;
    if here < size {
        return Step::Open(size - here);
    }
    let end = at + size;
    block(&file[..end], w)
}
