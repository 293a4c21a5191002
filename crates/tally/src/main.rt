// Answers one tally (document 01, "What reading tells"; document 02, #114). Standard input has the question, four numbers of four
// little-endian bytes each, the cut, the type and the wedge's start and end; then the volume, at most 2,097,152 bytes. A tally is
// printed as one line below its names, with what is told of the volume, since whole radials are counted whatever that is; a refusal
// as its number and place and, in the next line, in words. A longer volume is not asked.
#![tactic(auto)]

ghost use Rattle.std.specs.Prelude.{◌≡◌, length};

use ask::tallies;
use ask::tallies::Tally;
use printing::{bare_verdict, behind, first, print_counts, read_full};
use reading::Verdict;
use refusal::Refusal;
use std::io;
use wedge::Wedge;

fn print_tally(out: &impl Print, v: Verdict, t: Tally) -> io::Result<()> {
    print!(out; "verdict\tstart\tend\tradials\tspot blanks\tbelow threshold\trange folded\t")?;
    println!(out; "not scanned\tunknown\treserved\tvalues\tclasses")?;
    let sums = t.sums;
    bare_verdict(out, v)?;
    print!(out;
        "\t{}\t{}\t{}\t{}",
        t.wedge.start, t.wedge.end, sums.radials, sums.blanks
    )?;
    print_counts(out, b"\t", sums.counts)?;
    println!(out)
}

fn say_refusal(out: &impl Print, refusal: Refusal) -> io::Result<()> {
    match refusal {
        Refusal::NoWedge => println!(out;
            "the start and the end of a wedge are 0 to 35999 hundredths of a degree"
        ),
        Refusal::NoRadial => println!(out;
            "nothing yet: the block of that cut is not among the accepted ones"
        ),
        _ => println!(out; "no whole radial of that cut in that wedge has that type"),
    }
}

fn print_refused(out: &impl Print, refusal: Refusal) -> io::Result<()> {
    println!(out; "refused {} 0", refusal.number())?;
    say_refusal(out, refusal)
}

fn answer(out: &impl Print, question: &[u8], volume: &[u8]) -> io::Result<()> {
    let wedge = Wedge {
        start: le::u32_at(question, 8),
        end: le::u32_at(question, 12),
    };
    match tallies::tally_of(
        volume,
        le::u32_at(question, 0),
        le::u32_at(question, 4),
        wedge,
    ) {
        Ok(t) => print_tally(out, reading::read(volume).verdict, t),
        Err(refusal) => print_refused(out, refusal),
    }
}

// One byte more than a question and the longest volume.
const ROOM: usize = 2_097_169;

// By hand: where such an array is written in `main` itself, the check opens it place by place and gives up.
fn room() -> [u8; ROOM]
    ensures { ROOM ≡ length result }
{
    [0; ROOM]
}

fn main(rt: HostRuntime) -> io::Result<()> {
    let mut buf = room();
    let n = read_full(&mut rt.stdin(), &mut buf)?;
    if n < ROOM {
        answer(&rt, first(&buf, 16), behind(first(&buf, n), 16))
    } else {
        println!(rt; "too long")
    }
}
