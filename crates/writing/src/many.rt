// Volumes of many cuts, two radials in each, with their indexes in both forms; and, with no room held, the longest volumes: 256 cuts
// of 256 radials, and cuts of 1000, which leave few radials to the last ones.
ghost use Rattle.std.specs.Prelude.{◌<◌};

use crate::records;
use crate::records::{Facts, Moments};
use crate::telling::{Hex, print_index_answer, yes_or_no};
use crate::volumes::{put_front, put_radials};
use printing::{behind, first, print_reading, sum};
use reading::step::Step;
use reading::take;
use std::{fmt, io};
use walk::due::{Walk, is_end};

// The state of a radial that is number `number` of its cut, of which `last` is the last.
fn state(cuts: u16, cut: u16, number: u16, last: u16) -> u8 {
    if number == last {
        return if cut < cuts { 2 } else { 4 };
    }
    if 1 < number {
        return 1;
    }
    if cut == 1 { 3 } else { 0 }
}

fn facts(cuts: u16, cut: u16, number: u16, last: u16, sequence: u32) -> Facts {
    Facts {
        moments: Moments::Narrow,
        state: state(cuts, cut, number, last),
        sequence,
        number: number as u32,
        cut: cut as u32,
    }
}

// Two radials in each cut.
fn put_layers(out: &impl Print, w: Walk, room: &mut [u8], cuts: u16) -> io::Result<Walk> {
    let mut v = w;
    for cut in 1..=cuts {
        let sequence = 2 * (cut as u32) - 1;
        let states = [state(cuts, cut, 1, 2), state(cuts, cut, 2, 2)];
        v = put_radials(out, v, room, Moments::Narrow, cut as u32, sequence, &states)?;
    }
    Ok(v)
}

// An index in the other form, in a room of zeros, and its length: for a start of three bytes the second of them, for a start of one
// byte that one between two zeros.
fn other_form(index: &[u8], room: &mut [u8]) -> usize {
    if le::u16_at(index, 0) % 256 == 0 {
        le::put(room, 0, behind(index, 1));
        le::put(room, 1, behind(index, 3));
        return behind(index, 3).len() + 1;
    }
    le::put(room, 1, first(index, 1));
    le::put(room, 3, behind(index, 1));
    behind(index, 1).len() + 3
}

// The sum of an index, and whether it is right.
fn print_judged(out: &impl Print, file: &[u8], index: &[u8]) -> io::Result<()> {
    print!(out; " {} {}", sum(index), yes_or_no(index::right(file, index)))
}

// Its length, the start and the first cut's count, and each form's sum and whether it is right.
fn print_forms(out: &impl Print, file: &[u8], index: &[u8]) -> io::Result<()> {
    print!(out; " {} {}", index.len(), Hex(first(index, 5)))?;
    print_judged(out, file, index)?;
    let mut room = [0u8; 4700];
    let n = other_form(index, &mut room);
    print_judged(out, file, first(&room, n))
}

fn print_index(out: &impl Print, file: &[u8]) -> io::Result<()> {
    let mut room = [0xa5u8; 4700];
    let answer = index::write(file, &mut room);
    print!(out; "index")?;
    print_index_answer(out, answer, |n| print_forms(out, file, first(&room, n)))?;
    println!(out)
}

fn many(out: &impl Print, cuts: u16) -> io::Result<()> {
    let mut room = [0xa5u8; 118000];
    let mut w = put_front(out, &mut room, 0, cuts as u32)?;
    w = put_layers(out, w, &mut room, cuts)?;
    let file = first(&room, w.at);
    print!(out; "cuts {cuts}:")?;
    print_reading(out, reading::read(file))?;
    println!(out; "room {}", sum(&room))?;
    print_index(out, file)
}

// The walk after a block that was taken; of another step only a refusal is printed.
fn onward(out: &impl Print, step: Step, w: Walk) -> io::Result<Walk> {
    match step {
        Step::Took(v) => Ok(v),
        Step::Refused(n, place) => {
            print!(out; " refused {n} {place}")?;
            Ok(w)
        }
        Step::Open(_) | Step::Complete => Ok(w),
    }
}

// A radial and, where it is taken, its moment of one-byte gates, by the masks of every cut here.
fn take_radial(out: &impl Print, w: Walk, f: Facts) -> io::Result<Walk> {
    let cut = records::cut();
    let step = take::radial(records::radial(f), cut.moments_mask, cut.size_mask, w);
    let Step::Took(v) = step else {
        return onward(out, step, w);
    };
    let u = onward(out, take::moment(records::moment(2, 1), v), v)?;
    onward(out, take::data(u), u)
}

// The walk behind the blocks before the radials.
fn behind_cuts(out: &impl Print, cuts: u16) -> io::Result<Walk> {
    let mut w = Walk::begin();
    w = onward(out, take::generic(records::generic(), w), w)?;
    w = onward(out, take::site(records::site(), w), w)?;
    w = onward(out, take::task(records::task(0, cuts as u32), w), w)?;
    for _ in 0..cuts {
        w = onward(out, take::cut(records::cut(), w), w)?;
    }
    Ok(w)
}

// And behind so many radials, of cuts that have so many each, as far as they go.
fn behind_radials(out: &impl Print, w: Walk, cuts: u16, each: u16, radials: u16) -> io::Result<Walk>
    requires { 0 < each }
{
    let mut v = w;
    for n in 0..radials {
        let f = facts(cuts, n / each + 1, n % each + 1, each, n as u32 + 1);
        v = take_radial(out, v, f)?;
    }
    Ok(v)
}

// The bytes and the whole radials up to here, and whether the volume is over.
#[derive(Clone, Copy)]
struct Here(Walk);

impl fmt::Display for Here {
    fn fmt<W: fmt::Write>(&self, f: &mut fmt::Formatter<W>) -> fmt::Result {
        let w = self.0;
        write!(f, "{} {} {}", w.at, w.count.whole, yes_or_no(is_end(w.due)))
    }
}

fn try_radial(out: &impl Print, label: &str, w: Walk, f: Facts) -> io::Result<Walk> {
    print!(out; "{label}:")?;
    let v = take_radial(out, w, f)?;
    println!(out; " {}", Here(v))?;
    Ok(v)
}

// The last of 65,536 radials closes the volume; one that does not is refused, and so is a number behind the last.
fn longest(out: &impl Print) -> io::Result<()> {
    let w = behind_radials(out, behind_cuts(out, 256)?, 256, 256, 65535)?;
    println!(out; "65535 radials: {}", Here(w))?;
    try_radial(
        out,
        "radial 65536, closing",
        w,
        facts(256, 256, 256, 256, 65536),
    )?;
    try_radial(
        out,
        "40, radial 65536",
        w,
        facts(256, 256, 256, 1000, 65536),
    )?;
    try_radial(out, "12, radial 65537", w, facts(256, 256, 257, 257, 65537))?;
    Ok(())
}

// The last that a cut can have closes it; one that does not is refused.
fn long_cut(out: &impl Print, w: Walk) -> io::Result<()> {
    let v = behind_radials(out, w, 68, 1000, 999)?;
    println!(out; "999 radials of a cut: {}", Here(v))?;
    try_radial(
        out,
        "radial 1000, closing",
        v,
        facts(68, 1, 1000, 1000, 1000),
    )?;
    try_radial(out, "40, radial 1000", v, facts(68, 1, 1000, 1001, 1000))?;
    Ok(())
}

// Two radials must be left for each cut to come, and in a cut that is not closed one that closes it.
fn crowded(out: &impl Print) -> io::Result<()> {
    let w = behind_cuts(out, 68)?;
    long_cut(out, w)?;
    let mut v = behind_radials(out, w, 68, 1000, 65531)?;
    println!(out; "65531 radials, in cut 66 of 68: {}", Here(v))?;
    try_radial(out, "40, radial 65532", v, facts(68, 66, 532, 1000, 65532))?;
    v = try_radial(
        out,
        "radial 65532, closing cut 66",
        v,
        facts(68, 66, 532, 532, 65532),
    )?;
    v = try_radial(
        out,
        "radial 65533, opening cut 67",
        v,
        facts(68, 67, 1, 2, 65533),
    )?;
    try_radial(out, "40, radial 65534", v, facts(68, 67, 2, 3, 65534))?;
    v = try_radial(
        out,
        "radial 65534, closing cut 67",
        v,
        facts(68, 67, 2, 2, 65534),
    )?;
    v = try_radial(
        out,
        "radial 65535, opening cut 68",
        v,
        facts(68, 68, 1, 2, 65535),
    )?;
    try_radial(out, "40, radial 65536", v, facts(68, 68, 2, 3, 65536))?;
    try_radial(
        out,
        "radial 65536, closing cut 68",
        v,
        facts(68, 68, 2, 2, 65536),
    )?;
    Ok(())
}

pub(crate) fn run(out: &impl Print) -> io::Result<()> {
    for cuts in [50, 51, 120, 255, 256] {
        many(out, cuts)?;
    }
    longest(out)?;
    crowded(out)
}
