// Writes volumes of several shapes, one block at a time, and their indexes; then drives each refusal of the writer and
// of the index once.
#![tactic(auto)]

ghost use Rattle.std.specs.Prelude.{◌<◌, ◌^◌, length};

mod many;
mod records;
mod refusals;
mod telling;
mod volumes;

use crate::records::Moments;
use crate::telling::{Hex, print_index_answer, yes_or_no};
use crate::volumes::{put_front, put_pair, put_radials};
use printing::{first, sum};
use std::io;
use walk::due::Walk;

// The index, whether it is right, and whether it is with a byte changed in the place of the second radial.
fn print_written(out: &impl Print, file: &[u8], room: &mut [u8; 200], n: usize) -> io::Result<()> {
    let index = first(room, n);
    print!(out;
        " {n} {} {}",
        Hex(index),
        yes_or_no(index::right(file, index))
    )?;
    room[22] = 255;
    print!(out; " {}", yes_or_no(index::right(file, first(room, n))))
}

fn print_index(out: &impl Print, file: &[u8]) -> io::Result<()> {
    let mut room = [0xa5u8; 200];
    let answer = index::write(file, &mut room);
    print!(out; "index")?;
    print_index_answer(out, answer, |n| print_written(out, file, &mut room, n))?;
    println!(out)
}

fn print_volume(
    out: &impl Print,
    scan_type: u32,
    moments: Moments,
    room: &[u8],
    w: Walk,
) -> io::Result<()> {
    print!(out; "scan type {scan_type}, moments {}:", moments as u64)?;
    let file = first(room, w.at);
    printing::print_reading(out, reading::read(file))?;
    printing::print_lines(out, file)?;
    println!(out; "room {}", sum(room))?;
    print_index(out, file)
}

// One cut of two radials.
fn pair(out: &impl Print, scan_type: u32, moments: Moments) -> io::Result<()> {
    let mut room = [0xa5u8; 2500];
    let w = put_pair(out, &mut room, scan_type, moments)?;
    print_volume(out, scan_type, moments, &room, w)
}

// Cuts of three radials each, by their states, in a room of ROOM bytes.
fn triples<const ROOM: usize>(
    out: &impl Print,
    scan_type: u32,
    moments: Moments,
    cuts: &[[u8; 3]],
) -> io::Result<()>
    requires bytes { ROOM < 2 ^ 63 }
    requires few { length cuts.now < 256 }
{
    let mut room = [0xa5u8; ROOM];
    let mut w = put_front(out, &mut room, scan_type, cuts.len() as u32)?;
    for (i, states) in cuts.iter().enumerate() {
        let cut = i as u32;
        w = put_radials(out, w, &mut room, moments, cut + 1, 3 * cut + 1, states)?;
    }
    print_volume(out, scan_type, moments, &room, w)
}

fn three_cuts(out: &impl Print, scan_type: u32, moments: Moments) -> io::Result<()> {
    triples::<2500>(out, scan_type, moments, &[[3, 1, 2], [0, 1, 2], [0, 1, 4]])
}

fn main(rt: HostRuntime) -> io::Result<()> {
    pair(&rt, 0, Moments::Narrow)?;
    pair(&rt, 1, Moments::Wide)?;
    pair(&rt, 3, Moments::Both)?;
    pair(&rt, 4, Moments::Narrow)?;
    pair(&rt, 6, Moments::Wide)?;
    triples::<2500>(&rt, 2, Moments::Both, &[[5, 1, 6]])?;
    triples::<2500>(&rt, 5, Moments::Narrow, &[[5, 1, 6]])?;
    three_cuts(&rt, 0, Moments::Both)?;
    three_cuts(&rt, 1, Moments::Narrow)?;
    three_cuts(&rt, 3, Moments::Wide)?;
    three_cuts(&rt, 4, Moments::Both)?;
    three_cuts(&rt, 6, Moments::Narrow)?;
    triples::<4000>(&rt, 5, Moments::Narrow, &[[5, 1, 6]; 6])?;
    many::run(&rt)?;
    refusals::run(&rt)
}
