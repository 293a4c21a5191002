// A radial in one go: from where its header is due on to where it is whole, or where the walk stops. A step here is that of
// `step_at` for the one block that is due, written a second time. Each function but the last has one caller, so that they
// all become one loop, which keeps the walk in registers; a step with a second caller is not inlined, at each block the
// walk goes through memory, and reading takes twice as long. Whoever else wants a step calls `step_at`. Hope is asked only where a
// block is taken: asked ahead of that, its numbers are carried through both ways, and each header takes longer.
ghost use Rattle.std.specs.Prelude.{◌≡◌, ◌≤◌, length};
ghost use Rattle.walk.specs.declared.due.Due.TheVariants as due;
ghost use Rattle.reading.specs.Step.{step_of};
ghost use Rattle.reading.specs.Reading.{advance_of};

use crate::step::{Step, hoping, settle};
use crate::{Onward, Stretch};
use cut::Cut;
use moment::Moment;
use radial::Radial;
use walk::due::{Walk, cut_place};
use walk::{after, hope};

// The step where a radial header is due.
fn radial_step(file: &[u8], w: Walk) -> Step
    requires at_in_bounds { w.at ≤ length file.now }
    requires due_value { w.due ≡ due.Radial }
    ensures { result ≡ step_of file.now w }
{
    let at = w.at;
    let here = file.len() - at;
    if here < Radial::SIZE {
        return Step::Open(Radial::SIZE - here);
    }
    let end = at + Radial::SIZE;
    let p = &file[..end];
    let r = Radial::read(p, at);
    let place = cut_place(w.count.cut);
    let mask = le::u64_at(p, place + Cut::MOMENTS_MASK);
    let sizes = le::u64_at(p, place + Cut::SIZE_MASK);
    let next = after::radial(r, mask, sizes, w, end);
    let says = settle(r.check(w.radial_due()), at, next);
    let Step::Took(_) = says else {
        return says;
    };
    hoping(hope::radial(next), at, says)
}

// The step where a moment header is due.
fn moment_step(file: &[u8], w: Walk) -> Step
    requires at_in_bounds { w.at ≤ length file.now }
    requires due_value { w.due ≡ due.Moment }
    ensures { result ≡ step_of file.now w }
{
    let at = w.at;
    let here = file.len() - at;
    if here < Moment::SIZE {
        return Step::Open(Moment::SIZE - here);
    }
    let end = at + Moment::SIZE;
    let r = Moment::read(&file[..end], at);
    let next = after::moment(r, w, end);
    let says = settle(r.check(w.moment_due()), at, next);
    let Step::Took(_) = says else {
        return says;
    };
    hoping(hope::moments(next), at, says)
}

// The step where data is due.
fn data_step(file: &[u8], w: Walk) -> Step
    requires at_in_bounds { w.at ≤ length file.now }
    requires due_value { w.due ≡ due.Data }
    ensures { result ≡ step_of file.now w }
{
    let at = w.at;
    let here = file.len() - at;
    let length = w.rest.length;
    if here < length {
        return Step::Open(length - here);
    }
    Step::Took(after::data(w, at + length))
}

// On from a moment header to where its radial is whole.
fn moments_from(file: &[u8], from: Walk) -> Onward
    requires at_in_bounds { from.at ≤ length file.now }
    requires due_value { from.due ≡ due.Moment }
    ensures { result ≡ advance_of file.now from }
{
    let mut w = from;
    loop {
        let Step::Took(m) = moment_step(file, w) else {
            return Onward::Stopped(w);
        };
        let Step::Took(n) = data_step(file, m) else {
            return Onward::Stopped(m);
        };
        if m.rest.todo == 0 {
            let stretch = Stretch {
                start: m.present.start,
                end: n.at,
                cut: m.count.cut,
            };
            return Onward::Whole(stretch, n);
        }
        w = n;
    }
}

// On from a radial header to where the radial is whole.
pub(crate) fn radial_from(file: &[u8], w: Walk) -> Onward
    requires at_in_bounds { w.at ≤ length file.now }
    requires due_value { w.due ≡ due.Radial }
    ensures { result ≡ advance_of file.now w }
{
    let Step::Took(n) = radial_step(file, w) else {
        return Onward::Stopped(w);
    };
    moments_from(file, n)
}
