// Volumes with the wanted moments only (document 02, #111). Standard input is one case after the other: how many bytes a file has, how
// long the room is and which output is wanted, each with four bytes, little-endian; then the mask of the wanted types and another mask,
// each with eight; then the file, which is picked by the first mask. Of the input 2,097,180 bytes are taken, enough for a file of
// 2,097,152 bytes, and a room has up to 2,097,152 bytes, enough for any volume of these. What is longer is not looked at, and neither is a
// case that the input ends in.
#![tactic(auto)]

mod telling;
mod words;

ghost use Rattle.std.specs.Prelude.{◌<◌, length, IfOk, IfSome, IsNone};

use crate::telling::print_picked;
use crate::words::say_picked;
use pick::Picked;
use printing::{fill, first, read_full};
use std::io;
use std::io::Read;

// In a room that is filled with AA before; the volume that is written, which is empty where the pick is refused.
fn print_pick<'a>(
    out: &impl Print,
    file: &[u8],
    wanted: u64,
    room: &'a mut [u8],
) -> io::Result<&'a [u8]> {
    fill(room, 0xAA);
    let picked = pick::pick(file, wanted, room);
    print_picked(out, room, picked)?;
    let size = match picked {
        Picked::Written(size) => size,
        Picked::Refused(_, _) => 0,
    };
    Ok(first(room, size))
}

// The number is used where it is read, so an enum of outputs would be a second match.
// Output 1 is for the command line. Output 2 then picks what was written by the other mask: nothing, where the first pick is refused.
fn pick_asked(
    out: &impl Print,
    head: &[u8],
    file: &[u8],
    room: &mut [u8],
    second: &mut [u8],
) -> io::Result<()> {
    let wanted = le::u64_at(head, 12);
    match le::u32_at(head, 8) {
        1 => {
            let picked = pick::pick(file, wanted, room);
            say_picked(out, room, picked)
        }
        2 => {
            let volume = print_pick(out, file, wanted, room)?;
            print_pick(out, volume, le::u64_at(head, 20), second)?;
            Ok(())
        }
        _ => {
            print_pick(out, file, wanted, room)?;
            Ok(())
        }
    }
}

// Nothing follows what the input ends in.
fn cut_short<'a>(out: &impl Print) -> io::Result<Option<&'a [u8]>>
    ensures { IfOk result (λ rest. IsNone rest) }
{
    println!(out; "cut short")?;
    Ok(None)
}

// The case at the front of the input, and the input behind it; nothing, where the input ends in the case. The rooms may be longer than was
// asked for.
fn case<'a>(
    out: &impl Print,
    input: &'a [u8],
    room: &mut [u8],
    second: &mut [u8],
) -> io::Result<Option<&'a [u8]>>
    ensures { IfOk result (λ rest. IfSome rest (λ s. length s.now < length input.now)) }
{
    let Some((head, rest)) = input.split_at_checked(28) else {
        return cut_short(out);
    };
    let Some((file, rest)) = rest.split_at_checked(le::u32_at(head, 0) as usize) else {
        return cut_short(out);
    };
    let asked = le::u32_at(head, 4) as usize;
    if asked <= room.len() && asked <= second.len() {
        pick_asked(out, head, file, &mut room[..asked], &mut second[..asked])?;
    } else {
        println!(out; "too long")?;
    }
    Ok(Some(rest))
}

fn each(out: &impl Print, input: &[u8], room: &mut [u8], second: &mut [u8]) -> io::Result<()> {
    let mut rest = input;
    // By hand: a case says its own length, so none but the code that reads it knows where the next one begins.
    while !rest.is_empty() {
        let Some(behind) = case(out, rest, room, second)? else {
            return Ok(());
        };
        rest = behind;
    }
    Ok(())
}

// Each array is made where it is lent, and not by a function that hands it over: that would need the stack for it twice.
fn each_in_rooms(out: &impl Print, input: &[u8]) -> io::Result<()> {
    let mut room = [0u8; 2097152];
    let mut second = [0u8; 2097152];
    each(out, input, &mut room, &mut second)
}

fn run(out: &impl Print, input: &mut impl Read, buf: &mut [u8]) -> io::Result<()> {
    let n = read_full(input, buf)?;
    if n < buf.len() {
        each_in_rooms(out, first(buf, n))
    } else {
        println!(out; "too long")
    }
}

fn main(rt: HostRuntime) -> io::Result<()> {
    // one byte more than the most that is taken
    let mut buf = [0u8; 2097181];
    run(&rt, &mut rt.stdin(), &mut buf)
}
