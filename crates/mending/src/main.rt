// Closes broken volumes (document 02, #107). Standard input is one case after the other: how many bytes a file has, how many of them the
// shortest start has that is to be mended, how long the room is, which output is wanted; each of these numbers has four bytes,
// little-endian. Then the file. Each of its starts from that length on is mended, the last being the whole file, in a room that is filled
// with AA before. Of the input 2,097,168 bytes are taken, enough for a file of 2,097,152 bytes, and a room has up to 2,097,152 bytes,
// enough for any volume of these. What is longer is not looked at, and neither is a case that the input ends in.
#![tactic(auto)]

mod telling;
mod words;

ghost use Rattle.std.specs.Prelude.{◌<◌, length, IfOk, IfSome, IsNone};

use crate::telling::print_mended;
use crate::words::say_mended;
use printing::{fill, first, read_full};
use std::io;
use std::io::Read;

// How a mended file is printed.
#[derive(Clone, Copy)]
enum Output {
    // For the command line.
    Words,
    Line,
}

fn close(out: &impl Print, file: &[u8], room: &mut [u8], output: Output) -> io::Result<()> {
    fill(room, 0xAA);
    let mended = mend::mend(file, room);
    match output {
        Output::Words => say_mended(out, room, mended),
        Output::Line => print_mended(out, room, mended),
    }
}

fn each_start(
    out: &impl Print,
    file: &[u8],
    shortest: usize,
    room: &mut [u8],
    output: Output,
) -> io::Result<()> {
    for n in shortest..=file.len() {
        close(out, first(file, n), room, output)?;
    }
    Ok(())
}

// The case at the front of the input, and the input behind it; nothing, where the input ends in the case. The room may be longer than was
// asked for.
fn case<'a>(out: &impl Print, input: &'a [u8], room: &mut [u8]) -> io::Result<Option<&'a [u8]>>
    ensures { IfOk result (λ rest. IfSome rest (λ s. length s.now < length input.now)) }
{
    let Some((head, rest)) = input.split_at_checked(16) else {
        return cut_short(out);
    };
    let Some((file, rest)) = rest.split_at_checked(le::u32_at(head, 0) as usize) else {
        return cut_short(out);
    };
    let shortest = le::u32_at(head, 4) as usize;
    let asked = le::u32_at(head, 8) as usize;
    let output = match le::u32_at(head, 12) {
        1 => Output::Words,
        _ => Output::Line,
    };
    if room.len() < asked {
        println!(out; "too long")?;
    } else {
        each_start(out, file, shortest, &mut room[..asked], output)?;
    }
    Ok(Some(rest))
}

// Nothing follows what the input ends in.
fn cut_short<'a>(out: &impl Print) -> io::Result<Option<&'a [u8]>>
    ensures { IfOk result (λ rest. IsNone rest) }
{
    println!(out; "cut short")?;
    Ok(None)
}

fn each(out: &impl Print, input: &[u8], room: &mut [u8]) -> io::Result<()> {
    let mut rest = input;
    // By hand: a case says its own length, so none but the code that reads it knows where the next one begins.
    while !rest.is_empty() {
        let Some(behind) = case(out, rest, room)? else {
            return Ok(());
        };
        rest = behind;
    }
    Ok(())
}

// Each array is made where it is lent, and not by a function that hands it over: that would need the stack for it twice.
fn each_in_room(out: &impl Print, input: &[u8]) -> io::Result<()> {
    let mut room = [0u8; 2097152];
    each(out, input, &mut room)
}

fn run(out: &impl Print, input: &mut impl Read, buf: &mut [u8]) -> io::Result<()> {
    let n = read_full(input, buf)?;
    if n < buf.len() {
        each_in_room(out, first(buf, n))
    } else {
        println!(out; "too long")
    }
}

fn main(rt: HostRuntime) -> io::Result<()> {
    // one byte more than the most that is taken
    let mut buf = [0u8; 2097169];
    run(&rt, &mut rt.stdin(), &mut buf)
}
