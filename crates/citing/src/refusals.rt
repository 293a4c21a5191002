// Why a file is refused: the block, the field, what was found there and which clause of the table it breaks.
ghost use Rattle.std.specs.Prelude.{◌≡◌, ◌⊎◌, ◌+◌, ◌-◌, ◌<◌, ◌^◌};
ghost use Rattle.rules.specs.Check.{verdict};
ghost use Rattle.reading.specs.Exactly.{rules_of};
ghost use Rattle.reading.specs.Reading.{stop as stop_of};
ghost use Rattle.citing.specs.Fields.{field_at};
ghost use Rattle.citing.specs.Refusals.{block, block_due, why_of};

use crate::{Field, four, two};
use cut::Cut;
use generic::Generic;
use moment::Moment;
use radial::Radial;
use reading::Onward;
use rules::check::Clause;
use site::Site;
use task::Task;
use walk::due::{Due, Walk, is_end, size_at};

// Which block: its kind; its number among its kind, from 1, a moment's being that of its radial; which moment of the radial, from 1, and
// 0 where it is none; its place in the file.
#[derive(Clone, Copy)]
pub struct Block {
    pub kind: Due,
    pub number: usize,
    pub moment: usize,
    pub place: usize,
}

// The refusal's place, the clause that is broken, its block, and its field with what was found there.
#[derive(Clone, Copy)]
pub struct Cited {
    pub place: usize,
    pub clause: Clause,
    pub block: Block,
    pub field: Field,
}

#[derive(Clone, Copy)]
pub enum Why {
    // Nothing is refused.
    Complete,
    // Nothing is refused: so many bytes are missing from the block that is due.
    Open(usize),
    Broken(Cited),
    // 40, at the block's place: it keeps its rules, and no hope is left behind it.
    Hopeless(Block),
}

// The walk at which reading stops.
fn stop(file: &[u8]) -> Walk
    ensures { result ≡ stop_of file.now }
{
    let mut w = Walk::begin();
    loop {
        match reading::advance(file, w) {
            Onward::Whole(_, n) => {
                w = n;
            }
            Onward::Stopped(v) => {
                return v;
            }
        }
    }
}

// What the rules of the due block say.
fn check_at(file: &[u8], w: Walk) -> Result<(), Clause>
    ensures { result ≡ verdict (rules_of w.due file.now w) }
{
    let at = w.at;
    let due = w.due;
    match due {
        Due::Generic => Generic::read(file, at).check(),
        Due::Site => Site::read(file, at).check(),
        Due::Task => Task::read(file, at).check(),
        Due::Cut => Cut::read(file, at).check(),
        Due::Radial => Radial::read(file, at).check(w.radial_due()),
        Due::Moment => Moment::read(file, at).check(w.moment_due()),
        Due::Data => Ok(()),
        Due::Nothing => Ok(()),
    }
}

// Which of so many this one is, from 1, where it and others are still to come.
fn turn(all: u32, todo: usize) -> usize
    ensures { result ≡ all - todo + 1 }
{
    (all as usize).saturating_sub(todo) + 1
}

fn named(kind: Due, number: usize, moment: usize, place: usize) -> Block
    ensures { result ≡ block kind number moment place }
{
    Block {
        kind,
        number,
        moment,
        place,
    }
}

// The block that is due, or the radial that closed the volume.
fn block_due(file: &[u8], w: Walk) -> Block
    requires { w.count.whole + 1 < 2 ^ 64 }
    ensures { result ≡ block_due w.due file.now w }
{
    let at = w.at;
    let due = w.due;
    let whole = w.count.whole;
    let todo = w.rest.todo;
    let start = w.present.start;
    match due {
        Due::Generic => named(Due::Generic, 1, 0, at),
        Due::Site => named(Due::Site, 1, 0, at),
        Due::Task => named(Due::Task, 1, 0, at),
        Due::Cut => named(Due::Cut, turn(w.plan.cuts, todo), 0, at),
        Due::Radial => named(Due::Radial, whole + 1, 0, at),
        Due::Moment => {
            let moments = Radial::read(file, start).moment_number;
            named(Due::Moment, whole + 1, turn(moments, todo), at)
        }
        Due::Data => named(Due::Data, 0, 0, at),
        Due::Nothing => named(Due::Radial, whole, 0, start),
    }
}

// The field of a clause, in a block at a place.
fn field(file: &[u8], at: usize, c: Clause) -> Field
    requires at_bound { at < 2 ^ 63 }
    requires fact { (c.size ≡ 2) ⊎ (c.size ≡ 4) }
    ensures { result ≡ field_at file.now (at + c.place) c.size }
{
    let place = at + (c.place as usize);
    let size = c.size;
    match size {
        2 => two(file, place),
        _ => four(file, place),
    }
}

// Why a file is refused.
pub fn file(file: &[u8]) -> Why
    ensures { result ≡ why_of file.now }
{
    let w = stop(file);
    let at = w.at;
    let due = w.due;
    let block = block_due(file, w);
    if is_end(due) {
        if at < file.len() {
            let clause = Clause {
                number: 25,
                which: 1,
                place: Radial::STATE as u8,
                size: 4,
            };
            return Why::Broken(Cited {
                place: at,
                clause,
                block,
                field: four(file, w.present.start),
            });
        }
        return Why::Complete;
    }
    let size = size_at(due, w.rest.length);
    let here = file.len() - at;
    if here < size {
        return Why::Open(size - here);
    }
    match check_at(file, w) {
        Ok(()) => Why::Hopeless(block),
        Err(clause) => Why::Broken(Cited {
            place: at + (clause.place as usize),
            clause,
            block,
            field: field(file, at, clause),
        }),
    }
}
