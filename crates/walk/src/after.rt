// The walk after a block that was taken. The caller says where the block ended.
ghost use Rattle.std.specs.Prelude.{◌≡◌};
ghost use Rattle.walk.specs.Due.{due_if};
ghost use Rattle.walk.specs.After.{after_generic, after_site, after_task, after_cut, after_radial, after_moment, after_data, closes_cut};

use crate::due::{Count, Due, Plan, Present, Rest, Walk};
use moment::Moment;
use radial::Radial;
use rules::{masks, states};

fn due_if(b: bool, x: Due, y: Due) -> Due
    ensures { result ≡ due_if b x y }
{
    if b { x } else { y }
}

pub fn generic(w: Walk, end: usize) -> Walk
    ensures { result ≡ after_generic w end }
{
    Walk {
        due: Due::Site,
        at: end,
        ..w
    }
}

pub fn site(w: Walk, end: usize) -> Walk
    ensures { result ≡ after_site w end }
{
    Walk {
        due: Due::Task,
        at: end,
        ..w
    }
}

pub fn task(scan_type: u32, cuts: u32, w: Walk, end: usize) -> Walk
    ensures { result ≡ after_task scan_type cuts w end }
{
    Walk {
        due: Due::Cut,
        at: end,
        plan: Plan { scan_type, cuts },
        rest: Rest {
            todo: cuts as usize,
            left: 0,
            seen: 0,
            length: 0,
        },
        ..w
    }
}

pub fn cut(w: Walk, end: usize) -> Walk
    ensures { result ≡ after_cut w end }
{
    Walk {
        due: due_if(w.rest.todo <= 1, Due::Radial, Due::Cut),
        at: end,
        count: Count { cut: 1, ..w.count },
        rest: Rest {
            todo: w.rest.todo.saturating_sub(1),
            ..w.rest
        },
        ..w
    }
}

// The masks are those of the radial's cut.
pub fn radial(r: Radial, mask: u64, sizes: u64, w: Walk, end: usize) -> Walk
    ensures { result ≡ after_radial r mask sizes w end }
{
    Walk {
        due: Due::Moment,
        at: end,
        count: Count {
            in_cut: r.radial_number as usize,
            ..w.count
        },
        present: Present {
            start: w.at,
            state: r.state,
            sequence: r.sequence as usize,
            mask,
            sizes,
        },
        rest: Rest {
            todo: r.moment_number as usize,
            left: r.length_of_data as usize,
            seen: 0,
            length: 0,
        },
        ..w
    }
}

pub fn moment(r: Moment, w: Walk, end: usize) -> Walk
    ensures { result ≡ after_moment r w end }
{
    let length = r.length as usize;
    Walk {
        due: Due::Data,
        at: end,
        rest: Rest {
            todo: w.rest.todo.saturating_sub(1),
            left: w.rest.left.saturating_sub(Moment::SIZE + length),
            seen: masks::with_bit(w.rest.seen, r.data_type),
            length,
        },
        ..w
    }
}

// Whether the present radial closes its cut.
pub(crate) fn closes_cut(w: Walk) -> bool
    ensures { result ≡ closes_cut w }
{
    w.present.state == states::closing(w.plan.scan_type, w.plan.cuts, w.count.cut)
}

// The last data of a radial makes it whole; a radial that closes its cut ends it, and the last cut's ends the volume.
pub fn data(w: Walk, end: usize) -> Walk
    ensures { result ≡ after_data w end }
{
    if 0 < w.rest.todo {
        return Walk {
            due: Due::Moment,
            at: end,
            ..w
        };
    }
    let whole = w.present.sequence;
    if !closes_cut(w) {
        return Walk {
            due: Due::Radial,
            at: end,
            count: Count { whole, ..w.count },
            ..w
        };
    }
    if w.count.cut < w.plan.cuts {
        return Walk {
            due: Due::Radial,
            at: end,
            count: Count {
                cut: w.count.cut + 1,
                whole,
                in_cut: 0,
            },
            ..w
        };
    }
    Walk {
        due: Due::Nothing,
        at: end,
        count: Count {
            whole,
            in_cut: 0,
            ..w.count
        },
        ..w
    }
}
