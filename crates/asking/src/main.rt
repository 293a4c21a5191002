// Lists of questions answered by an index, and the index itself (document 02, #109). Standard input is one group after the other: what is
// wanted, how many bytes the volume has, how many the index has and how many lists follow, each with four bytes, little-endian; then the
// volume, the index and the lists. A list is how many radials, types and gates it has and how many entries the room of kinds and that of
// hundredths have, each with four bytes; then the radials with eight bytes each, the types with four and the gates with eight. Where 2 is
// wanted there is no index and no list: the index is written, in a room of as many bytes as the index is said to have. Of the input
// 3,932,715 bytes are taken, enough for a volume of 2,097,152 bytes, the index of 256 cuts and 65,536 radials, and a list of 65,536
// questions. What is longer is not looked at, and neither is what the input ends in.
#![tactic(auto)]

mod rooms;
mod telling;
mod words;

ghost use Rattle.std.specs.Prelude.{◌≤◌, ◌<◌, length, IfOk, IfSome, IsNone};

use crate::rooms::{ListRooms, unpack_eights, unpack_fours};
use crate::telling::print_answer;
use crate::words::{say_answer, say_written};
use printing::{first, read_full};
use std::io;
use std::io::Read;

// How a list's answers are printed.
#[derive(Clone, Copy)]
enum Output {
    // For the command line.
    Words,
    Line,
}

// What the lists of a group are asked of.
#[derive(Clone, Copy)]
struct Asked<'a> {
    file: &'a [u8],
    index: &'a [u8],
    output: Output,
}

// Nothing follows what the input ends in.
fn cut_short<'a>(out: &impl Print) -> io::Result<Option<&'a [u8]>>
    ensures { IfOk result (λ rest. IsNone rest) }
{
    println!(out; "cut short")?;
    Ok(None)
}

// The list at the front of the input, and the input behind it; nothing, where the input ends in the list. The rooms may be longer than
// the list says.
fn list<'a>(
    out: &impl Print,
    asked: Asked,
    input: &'a [u8],
    rooms: ListRooms,
) -> io::Result<Option<&'a [u8]>>
    ensures { IfOk result (λ rest. IfSome rest (λ s. length s.now ≤ length input.now)) }
{
    let Some((head, rest)) = input.split_at_checked(20) else {
        return cut_short(out);
    };
    let r = le::u32_at(head, 0) as usize;
    let t = le::u32_at(head, 4) as usize;
    let g = le::u32_at(head, 8) as usize;
    let k = le::u32_at(head, 12) as usize;
    let h = le::u32_at(head, 16) as usize;
    let Some((from_radials, rest)) = rest.split_at_checked(8 * r) else {
        return cut_short(out);
    };
    let Some((from_types, rest)) = rest.split_at_checked(4 * t) else {
        return cut_short(out);
    };
    let Some((from_gates, rest)) = rest.split_at_checked(8 * g) else {
        return cut_short(out);
    };
    let ListRooms {
        radials,
        types,
        gates,
        kinds,
        hundredths,
    } = rooms;
    if r <= radials.len()
        && t <= types.len()
        && g <= gates.len()
        && k <= kinds.len()
        && h <= hundredths.len()
    {
        let radials = &mut radials[..r];
        let types = &mut types[..t];
        let gates = &mut gates[..g];
        let kinds = &mut kinds[..k];
        let hundredths = &mut hundredths[..h];
        unpack_eights(from_radials, radials);
        unpack_fours(from_types, types);
        unpack_eights(from_gates, gates);
        let rooms = ListRooms {
            radials,
            types,
            gates,
            kinds,
            hundredths,
        };
        match asked.output {
            Output::Words => say_answer(out, asked.file, asked.index, rooms)?,
            Output::Line => print_answer(out, asked.file, asked.index, rooms)?,
        }
    } else {
        println!(out; "too long")?;
    }
    Ok(Some(rest))
}

// So many lists at the front of the input, and the input behind them, likewise.
fn lists<'a>(
    out: &impl Print,
    asked: Asked,
    input: &'a [u8],
    count: u32,
    rooms: ListRooms,
) -> io::Result<Option<&'a [u8]>>
    ensures { IfOk result (λ rest. IfSome rest (λ s. length s.now ≤ length input.now)) }
{
    let ListRooms {
        radials,
        types,
        gates,
        kinds,
        hundredths,
    } = rooms;
    let mut rest = input;
    for _ in 0..count {
        let rooms = ListRooms {
            radials,
            types,
            gates,
            kinds,
            hundredths,
        };
        let Some(behind) = list(out, asked, rest, rooms)? else {
            return Ok(None);
        };
        rest = behind;
    }
    Ok(Some(rest))
}

// Each array is made where it is lent, and not by a function that hands it over: that would need the stack for it twice.
fn lists_in_rooms<'a>(
    out: &impl Print,
    asked: Asked,
    input: &'a [u8],
    count: u32,
) -> io::Result<Option<&'a [u8]>>
    ensures { IfOk result (λ rest. IfSome rest (λ s. length s.now ≤ length input.now)) }
{
    let mut radials = [0usize; 65536];
    let mut types = [0u32; 65536];
    let mut gates = [0usize; 65536];
    let mut kinds = [0u8; 65536];
    let mut hundredths = [0i32; 65536];
    let rooms = ListRooms {
        radials: &mut radials,
        types: &mut types,
        gates: &mut gates,
        kinds: &mut kinds,
        hundredths: &mut hundredths,
    };
    lists(out, asked, input, count, rooms)
}

// The room may be longer than was asked for.
fn write_in(out: &impl Print, file: &[u8], room: &mut [u8], asked: usize) -> io::Result<()> {
    if room.len() < asked {
        println!(out; "too long")
    } else {
        say_written(out, file, &mut room[..asked])
    }
}

fn write(out: &impl Print, file: &[u8], asked: usize) -> io::Result<()> {
    let mut room = [0u8; 524807];
    write_in(out, file, &mut room, asked)
}

// The group at the front of the input, and the input behind it; nothing, where the input ends in the group.
fn group<'a>(out: &impl Print, input: &'a [u8]) -> io::Result<Option<&'a [u8]>>
    ensures { IfOk result (λ rest. IfSome rest (λ s. length s.now < length input.now)) }
{
    let Some((head, rest)) = input.split_at_checked(16) else {
        return cut_short(out);
    };
    let volume = le::u32_at(head, 4) as usize;
    let size = le::u32_at(head, 8) as usize;
    let Some((file, rest)) = rest.split_at_checked(volume) else {
        return cut_short(out);
    };
    let output = match le::u32_at(head, 0) {
        1 => Output::Words,
        2 => {
            write(out, file, size)?;
            return Ok(Some(rest));
        }
        _ => Output::Line,
    };
    let Some((index, rest)) = rest.split_at_checked(size) else {
        return cut_short(out);
    };
    let asked = Asked {
        file,
        index,
        output,
    };
    lists_in_rooms(out, asked, rest, le::u32_at(head, 12))
}

fn each(out: &impl Print, input: &[u8]) -> io::Result<()> {
    let mut rest = input;
    // By hand: a group says its own length, so none but the code that reads it knows where the next one begins.
    while !rest.is_empty() {
        let Some(behind) = group(out, rest)? else {
            return Ok(());
        };
        rest = behind;
    }
    Ok(())
}

fn run(out: &impl Print, input: &mut impl Read, buf: &mut [u8]) -> io::Result<()> {
    let n = read_full(input, buf)?;
    if n < buf.len() {
        each(out, first(buf, n))
    } else {
        println!(out; "too long")
    }
}

fn main(rt: HostRuntime) -> io::Result<()> {
    // one byte more than the most that is taken
    let mut buf = [0u8; 3932716];
    run(&rt, &mut rt.stdin(), &mut buf)
}
