// What reading tells, and the way from whole radial to whole radial.
#![tactic(auto)]

ghost use Rattle.std.specs.Prelude.{◌≡◌, ◌≤◌, length};
ghost use Rattle.reading.specs.Reading.{Tells, fuel, last, stop, advance_of, stretches, nth, bytes_of};

// What is said of a block, `step::Step`, and the functions that say it of a record.
pub mod step;
pub mod take;
mod whole;

use crate::step::{Step, step_at};
use crate::whole::radial_from;
use walk::due::{Due, Walk, ends_radial};

#[derive(Clone, Copy)]
pub enum Verdict {
    Complete,
    // The bytes missing from the block that is due.
    Open(usize),
    // The refusal's number and place.
    Refused(u32, usize),
}

#[derive(Clone, Copy)]
pub struct Reading {
    pub verdict: Verdict,
    // The end of the last accepted block.
    pub read: usize,
    // The whole radials.
    pub radials: usize,
}

// The bytes of a whole radial, from its header's first to its last data's end, and its cut.
#[derive(Clone, Copy)]
pub struct Stretch {
    pub start: usize,
    pub end: usize,
    pub cut: u32,
}

// Not a Result: a walk that stops is no error, and a caller goes on with it.
#[derive(Clone, Copy)]
pub enum Onward {
    // A further radial is whole: its stretch, and the walk after it.
    Whole(Stretch, Walk),
    // No further radial is whole: where the walk stops.
    Stopped(Walk),
}

// Radial by radial while they are whole, and what is left block by block. `radial_from` and `by_steps` are called here and
// in `advance_in`, so that both stay functions of their own: with one caller they would be inlined into `advance`, and each
// question would take longer.
pub fn read(file: &[u8]) -> Reading
    ensures { Tells file.now result }
{
    let mut w = Walk::begin();
    loop {
        let due = w.due;
        let next = if let Due::Radial = due {
            radial_from(file, w)
        } else {
            by_steps(file, w)
        };
        let Onward::Whole(_, n) = next else {
            return read_on(file, w);
        };
        w = n;
    }
}

// What reading tells, by the blocks from one of its walks on.
fn read_on(file: &[u8], from: Walk) -> Reading
    requires at_in_bounds { from.at ≤ length file.now }
    requires file_value { stop file.now ≡ last (fuel file.now) file.now from }
    ensures { Tells file.now result }
{
    let mut w = from;
    loop {
        match step_at(file, w) {
            Step::Took(n) => {
                w = n;
            }
            Step::Open(m) => {
                return Reading {
                    verdict: Verdict::Open(m),
                    read: w.at,
                    radials: w.count.whole,
                };
            }
            Step::Refused(n, p) => {
                return Reading {
                    verdict: Verdict::Refused(n, p),
                    read: w.at,
                    radials: w.count.whole,
                };
            }
            Step::Complete => {
                return Reading {
                    verdict: Verdict::Complete,
                    read: w.at,
                    radials: w.count.whole,
                };
            }
        }
    }
}

// On from a walk to where a further radial is whole. A walk past the file's end is none of this file's, and stops at once.
pub fn advance(file: &[u8], from: Walk) -> Onward
    ensures { result ≡ advance_of file.now from }
{
    if file.len() < from.at {
        return Onward::Stopped(from);
    }
    advance_in(file, from)
}

// In one go where a radial header is due. The choice is a function of its own: where it is made in `advance`, the compiler
// copies the walk once more for each radial.
fn advance_in(file: &[u8], from: Walk) -> Onward
    requires { from.at ≤ length file.now }
    ensures { result ≡ advance_of file.now from }
{
    let due = from.due;
    if let Due::Radial = due {
        return radial_from(file, from);
    }
    by_steps(file, from)
}

// The same block by block.
fn by_steps(file: &[u8], from: Walk) -> Onward
    requires { from.at ≤ length file.now }
    ensures { result ≡ advance_of file.now from }
{
    let mut w = from;
    loop {
        match step_at(file, w) {
            Step::Took(n) => {
                let due = w.due;
                if ends_radial(due, w.rest.todo) {
                    let stretch = Stretch {
                        start: w.present.start,
                        end: n.at,
                        cut: w.count.cut,
                    };
                    return Onward::Whole(stretch, n);
                }
                w = n;
            }
            Step::Open(_) => {
                return Onward::Stopped(w);
            }
            Step::Refused(_, _) => {
                return Onward::Stopped(w);
            }
            Step::Complete => {
                return Onward::Stopped(w);
            }
        }
    }
}

// The whole radial with a sequence number, from 1.
pub fn find(file: &[u8], sequence: usize) -> Option<Stretch>
    ensures { result ≡ nth (stretches file.now) sequence }
{
    if sequence == 0 {
        return None;
    }
    let mut w = Walk::begin();
    let mut before = sequence - 1;
    loop {
        match advance(file, w) {
            Onward::Whole(stretch, n) => {
                if before == 0 {
                    return Some(stretch);
                }
                before = before - 1;
                w = n;
            }
            Onward::Stopped(_) => {
                return None;
            }
        }
    }
}

// A radial's own stretch of the file. A stretch that does not lie in the file gives what the file has of it.
pub fn own(file: &[u8], s: Stretch) -> &[u8]
    ensures { result.now ≡ bytes_of file.now s }
{
    let start = s.start;
    let end = s.end;
    if end <= start {
        return &file[..0];
    }
    if file.len() <= start {
        return &file[..0];
    }
    if file.len() < end {
        return &file[start..];
    }
    &file[start..end]
}
