// Brings an old shelf in. Standard input is one case after the other: how many bytes our records have, how many the old file has, how long
// the room is, which output is wanted; each of these numbers has four bytes, little-endian. Then our records, generic, site, task and cuts,
// one after the other, and the old file. The room is filled with AA before, and its checksum covers all of it, so that no byte is stored
// unseen. Of the input 2,163,120 bytes are taken, enough for our records of 256 cuts and an old file of 2,097,152 bytes, and a room has up
// to 4,169,072 bytes, enough for any volume of these. What is longer is not looked at, and neither is a case that the input ends in.
#![tactic(auto)]

mod gates_told;
mod telling;

ghost use Rattle.std.specs.Prelude.{◌≤◌, ◌-◌, length, IfOk};

use crate::telling::{Output, print_refused, print_taken};
use generic::Generic;
use printing::{behind, fill, first, read_full};
use site::Site;
use std::io;
use std::io::Read;
use task::Task;
use writer::order::Answer;

// Our records are all there.
fn bring(
    out: &impl Print,
    records: &[u8],
    old: &[u8],
    room: &mut [u8],
    output: Output,
) -> io::Result<()> {
    fill(room, 0xAA);
    let put = shelf::import(
        Generic::read(records, 0),
        Site::read(records, Generic::SIZE),
        Task::read(records, Generic::SIZE + Site::SIZE),
        behind(records, Generic::SIZE + Site::SIZE + Task::SIZE),
        old,
        room,
    );
    match put.answer {
        Answer::Taken => print_taken(out, room, put.walk.at, output),
        Answer::Refused(number, place) => print_refused(out, room, number, place, output),
    }
}

// The records and the old file are there as they were given; the room may be longer than was asked for.
fn answer(
    out: &impl Print,
    records: &[u8],
    old: &[u8],
    room: &mut [u8],
    asked: usize,
    output: Output,
) -> io::Result<()> {
    if records.len() < Generic::SIZE + Site::SIZE + Task::SIZE {
        println!(out; "no records")
    } else if room.len() < asked {
        println!(out; "too long")
    } else {
        bring(out, records, old, &mut room[..asked], output)
    }
}

// The case that the input begins with, and what follows it.
fn case<'a>(out: &impl Print, input: &'a [u8], room: &mut [u8]) -> io::Result<&'a [u8]>
    ensures { IfOk result (λ rest. length rest.now ≤ length input.now - 16) }
{
    let records = le::u32_at(input, 0) as usize;
    let old = le::u32_at(input, 4) as usize;
    let asked = le::u32_at(input, 8) as usize;
    let output = Output::from(le::u32_at(input, 12));
    if input.len() < 16 + records + old {
        println!(out; "cut short")?;
        return Ok(&[]);
    }
    let (records, rest) = input[16..].split_at(records);
    let (old, rest) = rest.split_at(old);
    answer(out, records, old, room, asked, output)?;
    Ok(rest)
}

fn each(out: &impl Print, input: &[u8], room: &mut [u8]) -> io::Result<()> {
    // By hand: a case says how long it is, so no chunks of one length part the input.
    let mut rest = input;
    while !rest.is_empty() {
        rest = case(out, rest, room)?;
    }
    Ok(())
}

// Each array is made where it is lent, and not by a function that hands it over: that would need the stack for it twice.
fn each_in_room(out: &impl Print, input: &[u8]) -> io::Result<()> {
    let mut room = [0u8; 4169072];
    each(out, input, &mut room)
}

fn run(out: &impl Print, input: &mut impl Read, buf: &mut [u8]) -> io::Result<()> {
    let n = read_full(input, buf)?;
    if n < buf.len() {
        each_in_room(out, first(buf, n))
    } else {
        println!(out; "too long")
    }
}

fn main(rt: HostRuntime) -> io::Result<()> {
    // one byte more than the most that is taken
    let mut buf = [0u8; 2163121];
    run(&rt, &mut rt.stdin(), &mut buf)
}
