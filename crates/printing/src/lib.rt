// What the programs share: verdicts, counts and listings on standard output, standard input read into a room, the start and the rest
// of a slice, and a room filled and shown in one number.
#![tactic(auto)]

ghost use Rattle.std.specs.Prelude.{◌≡◌, ◌≤◌, IfOk, nat_abs, length, take, drop, replicate};
ghost use Rattle.printing.specs.Sum.{mixed_of, sum_from};

use gates::Counts;
use listing::{Cursor, Line};
use reading::{Reading, Verdict};
use std::io;
use std::io::Read;

// The first n bytes, or all where there are fewer.
pub fn first(s: &[u8], n: usize) -> &[u8]
    ensures { result.now ≡ take n s.now }
{
    &s[..n.min(s.len())]
}

// What follows the first n bytes, or nothing where there are fewer.
pub fn behind(s: &[u8], n: usize) -> &[u8]
    ensures { result.now ≡ drop n s.now }
{
    &s[n.min(s.len())..]
}

// Fills a room from a reader, up to its length or to where the input ends, and answers how many bytes came.
pub fn read_full(input: &mut impl Read, room: &mut [u8]) -> io::Result<usize>
    ensures { IfOk result (λ n. n ≤ length room.new) }
{
    // By hand: a read may bring fewer bytes than asked, read_exact refuses a short input, and read_to_end wants the heap.
    let mut done = 0;
    while done < room.len() {
        let n = input.read(&mut room[done..])?;
        if n == 0 {
            return Ok(done);
        }
        done += n;
    }
    Ok(done)
}

// The size of a signed number: std's own, and the edit `one_too_large` holds it.
pub fn size(z: i32) -> u64
    ensures { result ≡ nat_abs z }
{
    u64::from(z.unsigned_abs())
}

// With nothing before it, for a line that begins with it.
pub fn bare_verdict(out: &impl Print, v: Verdict) -> io::Result<()> {
    match v {
        Verdict::Complete => print!(out; "complete"),
        Verdict::Open(missing) => print!(out; "open {missing}"),
        Verdict::Refused(n, place) => print!(out; "refused {n} {place}"),
    }
}

pub fn print_verdict(out: &impl Print, v: Verdict) -> io::Result<()> {
    print!(out; " ")?;
    bare_verdict(out, v)
}

// A sum with one entry more.
pub fn mixed(sum: u32, entry: u32) -> u32
    ensures { result ≡ mixed_of sum entry }
{
    sum.wrapping_mul(31).wrapping_add(entry)
}

// The bytes of a room in one number, which a change of any one byte changes.
pub fn sum(s: &[u8]) -> u32
    ensures { result ≡ sum_from 0 s.now }
{
    s.iter().fold(0, |n, b| mixed(n, u32::from(*b)))
}

// A written volume for the command line: its length, and behind that line its bytes as they are.
pub fn print_volume(out: &impl Print, volume: &[u8]) -> io::Result<()> {
    println!(out; "written {}", volume.len())?;
    out.write_all(volume)
}

// One byte all over a room, so that what is stored there afterwards shows: std's own, and the edit `one_too_large` holds it.
pub fn fill(room: &mut [u8], byte: u8)
    ensures { room.new ≡ replicate (length room.old) byte }
{
    room.fill(byte);
}

// The seven counts of a tally, each behind a sign.
pub fn print_counts(out: &impl Print, sign: &[u8], c: Counts) -> io::Result<()> {
    let counts = [
        c.below,
        c.folded,
        c.not_scanned,
        c.unknown,
        c.reserved,
        c.value,
        c.class,
    ];
    for n in counts {
        out.write_all(sign)?;
        print!(out; "{n}")?;
    }
    Ok(())
}

// The verdict, the bytes read and the whole radials.
pub fn print_reading(out: &impl Print, r: Reading) -> io::Result<()> {
    print_verdict(out, r.verdict)?;
    println!(out; " {} {}", r.read, r.radials)
}

fn print_line(out: &impl Print, line: Line) -> io::Result<()> {
    match line {
        Line::Radial {
            sequence,
            place,
            state,
            cut,
        } => println!(out; "radial {sequence} {place} {state} {cut}"),
        Line::Moment {
            data_type,
            place,
            gates,
        } => println!(out; "moment {data_type} {place} {gates}"),
    }
}

// Every whole radial and its moments, a line each.
pub fn print_lines(out: &impl Print, file: &[u8]) -> io::Result<()> {
    let mut c = Cursor::begin();
    while let Some((line, next)) = listing::next_line(file, c) {
        print_line(out, line)?;
        c = next;
    }
    Ok(())
}
