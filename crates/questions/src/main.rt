// Asks of the first volume on standard input, of shortened and damaged copies of it, and of the two volumes that follow it, what is
// told of radials, moments, gates, rows and tallies (document 01, "What reading tells"; document 02, #101, #103, #105 and #114), and
// prints the answers. The places named below are those of the volume `rich` of tools/volumes.py, of 2,535 bytes, eight radials and
// three cuts; the volume behind it is `layers`, of 3,360 bytes, an RHI of six cuts with two radials each, and one more in the last;
// the last one is `valley`, two cuts with a radial at each azimuth that a wedge may turn on.
#![tactic(auto)]

mod checksum;
mod gates_told;
mod lines;
mod rows_told;
mod tallies_told;
mod words;

use printing::{behind, first, read_full};
use std::{io, mem};

// The sequence numbers asked are those below this: to one past the last whole radial, and at most to 9.
fn end_of(radials: usize) -> u32 {
    radials.min(8) as u32 + 2
}

fn section(out: &impl Print, label: &str, file: &[u8]) -> io::Result<()> {
    let r = reading::read(file);
    let end = end_of(r.radials);
    println!(out;
        "{label}: bytes {}, whole radials {}",
        file.len(),
        r.radials
    )?;
    for k in 0..end {
        lines::print_radial(out, file, k)?;
    }
    lines::print_lines(
        out,
        "moments",
        end,
        |k, t| lines::print_moment(out, file, k, t),
    )?;
    lines::print_lines(
        out,
        "gates",
        end,
        |k, t| gates_told::print_all(out, file, k, t),
    )?;
    lines::print_lines(
        out,
        "rows",
        end,
        |k, t| rows_told::print_row(out, file, k, t, 16, 16),
    )?;
    lines::print_lines(
        out,
        "tallies",
        5,
        |k, t| tallies_told::print_tally(out, file, k, t),
    )?;
    tallies_told::print_wedges(out, file, 1, 1)
}

// Every gate of a radial of each cut, and gates of a radial and of a moment that are not there.
fn each_gate(out: &impl Print, file: &[u8]) -> io::Result<()> {
    let asked = [
        (1, 1),
        (1, 2),
        (1, 3),
        (4, 64),
        (4, 63),
        (8, 4),
        (7, 13),
        (7, 14),
        (8, 15),
        (8, 16),
        (0, 1),
        (9, 1),
        (1, 4),
    ];
    for (sequence, t) in asked {
        gates_told::print_each(out, file, sequence, t)?;
    }
    Ok(())
}

// Each special code, a value, classes of one and of two bytes and a special code among them, no such gate and no such
// moment; and the first 1,200 bytes, where radial 1 is not whole.
fn in_words(out: &impl Print, file: &[u8]) -> io::Result<()> {
    let asked = [
        (1, 1, 0),
        (1, 1, 1),
        (1, 1, 2),
        (1, 1, 3),
        (1, 1, 4),
        (1, 1, 5),
        (7, 14, 5),
        (8, 15, 3),
        (8, 15, 7),
        (1, 1, 19),
        (1, 4, 0),
    ];
    for (sequence, t, i) in asked {
        words::print_words(out, file, sequence, t, i)?;
    }
    words::print_words(out, first(file, 1200), 1, 1, 0)
}

// The moment of type 2 in radial 1 has 13 gates. The last two show that 30 and 31 come before 33.
fn short_rooms(out: &impl Print, file: &[u8]) -> io::Result<()> {
    let asked = [
        (1, 2, 13, 13),
        (1, 2, 12, 13),
        (1, 2, 13, 12),
        (1, 2, 0, 0),
        (9, 2, 0, 0),
        (1, 4, 0, 0),
    ];
    for (sequence, t, kinds_lent, hundredths_lent) in asked {
        rows_told::print_lent(out, file, sequence, t, kinds_lent, hundredths_lent)?;
    }
    Ok(())
}

// The second byte of the generic type, a 0 that the compiler does not know.
fn zero(file: &[u8]) -> u8 {
    file.get(9).copied().unwrap_or(0)
}

// Over a scale of 0, which no file has (document 02, #105): below the offset, at it, above it, and a special code.
fn over_zero(out: &impl Print, scale: u16) -> io::Result<()> {
    for code in [65, 66, 67, 2] {
        gates_told::print_over(out, scale, code)?;
    }
    Ok(())
}

fn prefixes(out: &impl Print, file: &[u8]) -> io::Result<()> {
    section(out, "one byte short", first(file, 2534))?;
    section(out, "cut in radial 3", first(file, 1600))?;
    section(out, "cut in the second cut block", first(file, 800))?;
    section(out, "empty", first(file, 0))
}

// Puts a byte at a place, and answers the one that it held. Past the end there is no place, and nothing changes.
fn exchange(buf: &mut [u8; 65536], place: usize, value: u8) -> u8 {
    match buf.get_mut(place) {
        Some(byte) => mem::replace(byte, value),
        None => value,
    }
}

// The file with another byte at a place, which holds the old one again afterwards.
fn damaged(
    out: &impl Print,
    label: &str,
    buf: &mut [u8; 65536],
    n: usize,
    place: usize,
    value: u8,
) -> io::Result<()> {
    let old = exchange(buf, place, value);
    section(out, label, first(buf, n))?;
    exchange(buf, place, old);
    Ok(())
}

// Of a type of two bytes, of classes, and of a cut that is not there.
fn wedges(out: &impl Print, file: &[u8]) -> io::Result<()> {
    for (cut, t) in [(1, 2), (3, 14), (4, 1)] {
        tallies_told::print_wedges(out, file, cut, t)?;
    }
    Ok(())
}

// Of both cuts, of a type that two radials of a cut have, and of one that none has; of cuts that are not there.
fn valley(out: &impl Print, file: &[u8]) -> io::Result<()> {
    for (cut, t) in [(1, 2), (2, 2), (1, 4), (1, 3), (0, 2), (3, 2)] {
        tallies_told::print_wedges(out, file, cut, t)?;
    }
    Ok(())
}

// The two volumes behind the first n bytes; the first of them ends at 5,895.
fn others(out: &impl Print, buf: &[u8; 65536], n: usize, end: usize) -> io::Result<()> {
    section(out, "six layers", behind(first(buf, 5895), n))?;
    valley(out, behind(first(buf, end), 5895))
}

fn main(rt: HostRuntime) -> io::Result<()> {
    let mut buf = [0u8; 65536];
    let end = read_full(&mut rt.stdin(), &mut buf)?;
    let n = 2535;
    let file = first(&buf, n);
    section(&rt, "whole", file)?;
    each_gate(&rt, file)?;
    in_words(&rt, file)?;
    short_rooms(&rt, file)?;
    wedges(&rt, file)?;
    over_zero(&rt, u16::from(zero(file)))?;
    prefixes(&rt, file)?;
    damaged(&rt, "bad state in radial 7", &mut buf, n, 2097, 9)?;
    damaged(&rt, "bad type in radial 3", &mut buf, n, 1664, 2)?;
    damaged(&rt, "bad magic", &mut buf, n, 0, 0)?;
    damaged(&rt, "bad process mode in cut 3", &mut buf, n, 928, 0)?;
    damaged(&rt, "another scale in radial 1", &mut buf, n, 1252, 7)?;
    others(&rt, &buf, n, end)
}
