// Checks rows that somebody decoded. Standard input is one volume after the other, each with rows to check against it: how many bytes
// the volume has, how many rows follow it, its bytes; then each row, by its radial, its type, how many kinds and how many hundredths
// there are, and these. A kind has one byte, every other number four, little-endian, and hundredths are signed. A line for each row:
// that it is the file's own, or the first gate at which it differs; a refusal as its number and place and, in the next line, in words.
// Of the input 2,424,856 bytes are taken, enough for a volume of 2,097,152 bytes and a row of 65,536 gates; a longer one is not looked
// at.
#![tactic(auto)]

ghost use Rattle.std.specs.Prelude.{◌≡◌, ◌≤◌, ◌/◌, length, min, IfOk};

use decoded::Compared;
use printing::{behind, first, read_full};
use refusal::Refusal;
use std::io;
use std::io::Read;

// Why a row is not looked at, in words.
fn reason(refusal: Refusal) -> &'static str {
    match refusal {
        Refusal::NoRadial => "nothing yet: no such whole radial",
        _ => "no such moment in the radial",
    }
}

fn print_answer(out: &impl Print, answer: Result<Compared, Refusal>) -> io::Result<()> {
    match answer {
        Ok(Compared::Same) => println!(out; "same"),
        Ok(Compared::Differs(gate)) => println!(out; "differs {gate}"),
        Err(refusal) => println!(out; "refused {} 0\n{}", refusal.number(), reason(refusal)),
    }
}

// The numbers of four bytes each, put into a room: as many as there are, or as the room has place for.
fn unpack<'a>(bytes: &[u8], room: &'a mut [i32]) -> &'a [i32]
    ensures within { length result.now ≤ length room.old }
    ensures many { length result.now ≡ min (length bytes.now / 4) (length room.old) }
{
    for (x, four) in room.iter_mut().zip(bytes.chunks_exact(4)) {
        *x = le::i32_of(le::u32_at(four, 0));
    }
    let n = (bytes.len() / 4).min(room.len());
    &room[..n]
}

// The row that the input begins with, and what follows it.
fn row<'a>(
    out: &impl Print,
    volume: &[u8],
    input: &'a [u8],
    room: &mut [i32],
) -> io::Result<&'a [u8]>
    ensures { IfOk result (λ rest. length rest.now ≤ length input.now) }
{
    let kinds = le::u32_at(input, 8) as usize;
    let bytes = 4 * (le::u32_at(input, 12) as usize);
    let lists = behind(input, 16);
    let hundredths = behind(lists, kinds);
    if bytes <= 4 * room.len() {
        print_answer(
            out,
            decoded::check(
                volume,
                le::u32_at(input, 0) as usize,
                le::u32_at(input, 4),
                first(lists, kinds),
                unpack(first(hundredths, bytes), room),
            ),
        )?;
    } else {
        println!(out; "too long")?;
    }
    Ok(behind(hundredths, bytes))
}

// So many rows, and what follows them.
fn rows<'a>(
    out: &impl Print,
    volume: &[u8],
    input: &'a [u8],
    count: u32,
    room: &mut [i32],
) -> io::Result<&'a [u8]>
    ensures { IfOk result (λ rest. length rest.now ≤ length input.now) }
{
    // By hand: a row says how long it is, so no chunks of one length part the input.
    let mut rest = input;
    for _ in 0..count {
        if rest.is_empty() {
            break;
        }
        rest = row(out, volume, rest, room)?;
    }
    Ok(rest)
}

fn each(out: &impl Print, input: &[u8], room: &mut [i32]) -> io::Result<()> {
    // By hand: a volume and its rows say how long they are, so no chunks of one length part the input.
    let mut rest = input;
    while !rest.is_empty() {
        let bytes = le::u32_at(rest, 0) as usize;
        let count = le::u32_at(rest, 4);
        let behind_counts = behind(rest, 8);
        let volume = first(behind_counts, bytes);
        rest = rows(out, volume, behind(behind_counts, bytes), count, room)?;
    }
    Ok(())
}

fn run(out: &impl Print, input: &mut impl Read, buf: &mut [u8]) -> io::Result<()> {
    let n = read_full(input, buf)?;
    let mut hundredths = [0i32; 65536];
    if n < buf.len() {
        each(out, first(buf, n), &mut hundredths)
    } else {
        println!(out; "too long")
    }
}

fn main(rt: HostRuntime) -> io::Result<()> {
    // one byte more than the longest volume and row with what is said before them
    let mut buf = [0u8; 2424857];
    run(&rt, &mut rt.stdin(), &mut buf)
}
