// What is printed of an import.
use crate::gates_told::print_radials;
use printing::{first, print_verdict, sum};
use reading::{Reading, Verdict};
use std::io;

// Which output is wanted.
#[derive(Clone, Copy)]
pub(crate) enum Output {
    // A line with the room's checksum.
    Sum,
    // That, and behind it the gates of the volume that was written.
    Gates,
    // For the command line: a line, and behind it the volume's bytes as they are, or a refusal in words.
    Volume,
}

impl From<u32> for Output {
    fn from(n: u32) -> Output {
        match n {
            1 => Output::Gates,
            2 => Output::Volume,
            _ => Output::Sum,
        }
    }
}

// Without the bytes that are missing. What an import wrote is never refused.
fn name(v: Verdict) -> &'static str {
    match v {
        Verdict::Complete => "complete",
        Verdict::Open(_) => "open",
        Verdict::Refused(_, _) => "refused",
    }
}

fn print_line(out: &impl Print, room: &[u8], bytes: usize, r: Reading) -> io::Result<()> {
    println!(out; "taken {bytes} {} {}", name(r.verdict), sum(room))
}

// The volume is the first bytes of the room.
pub(crate) fn print_taken(
    out: &impl Print,
    room: &[u8],
    bytes: usize,
    output: Output,
) -> io::Result<()> {
    let volume = first(room, bytes);
    let r = reading::read(volume);
    match output {
        Output::Sum => print_line(out, room, bytes, r),
        Output::Gates => {
            print_line(out, room, bytes, r)?;
            print_radials(out, volume, r.radials)
        }
        Output::Volume => {
            print!(out; "taken {bytes}")?;
            print_verdict(out, r.verdict)?;
            println!(out)?;
            out.write_all(volume)
        }
    }
}

// Why an import is refused, in words.
fn reason(n: u32) -> &'static str {
    match n {
        50 => "the length of the old file is not a positive multiple of 2432",
        51 => "the radar mark of the old radial there is not 1",
        62 =>
            "the time of the old radial there: day 0, milliseconds not under 86,400,000 or seconds over 2,147,483,647",
        52 => "a gate count of the old radial there is too large, or all are 0",
        53 => "the resolution of the old radial there is not 2 or 4",
        _ => "our writer refuses a block of the new volume there",
    }
}

pub(crate) fn print_refused(
    out: &impl Print,
    room: &[u8],
    n: u32,
    place: usize,
    output: Output,
) -> io::Result<()> {
    match output {
        Output::Volume => println!(out; "refused {n} {place}\n{}", reason(n)),
        _ => println!(out; "refused {n} {place} {}", sum(room)),
    }
}
