// Tells which files some bytes would still complete (document 02, #110). Standard input, at most 262,144 bytes, is one file after the
// other: each keeps the start of the one before it and goes on with bytes of its own. It comes as two numbers of four little-endian
// bytes, how many bytes it keeps and how many are its own, and then these. A line for each: its number, and what reading tells, the
// verdict, the bytes read and the whole radials.
#![tactic(auto)]

use printing::{behind, first, print_reading, read_full};
use std::io;

fn tell(out: &impl Print, number: u64, file: &[u8]) -> io::Result<()> {
    print!(out; "{number}:")?;
    print_reading(out, reading::read(file))
}

// The file that keeps so many bytes of the one before and goes on with others.
fn next(out: &impl Print, room: &mut [u8], number: u64, kept: u32, own: &[u8]) -> io::Result<()> {
    le::put(room, kept as usize, own);
    tell(out, number, first(room, kept as usize + own.len()))
}

fn each(out: &impl Print, files: &[u8], room: &mut [u8]) -> io::Result<()> {
    let mut rest = files;
    let mut number = 0;
    // By hand: a file says how long it is, so no chunks of one length part the input.
    while !rest.is_empty() {
        let kept = le::u32_at(rest, 0);
        let n = le::u32_at(rest, 4) as usize;
        number += 1;
        next(out, room, number, kept, first(behind(rest, 8), n))?;
        rest = behind(rest, 8 + n);
    }
    Ok(())
}

fn main(rt: HostRuntime) -> io::Result<()> {
    let mut buf = [0u8; 262144];
    let n = read_full(&mut rt.stdin(), &mut buf)?;
    let mut room = [0u8; 262144];
    each(&rt, first(&buf, n), &mut room)
}
