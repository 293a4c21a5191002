// What is printed of a mended file for the command line: the report in words, the volume's length, and behind that line its bytes as they
// are; or a refusal in words.
use mend::report::{Field, Report};
use printing::{first, print_volume};
use refusal::Refusal;
use std::io;

// Nothing of a field that is not named.
fn say_field(out: &impl Print, name: &str, field: Field) -> io::Result<()> {
    match field {
        Field::Changed(c) => println!(out;
            "{name}: was {} at byte {} of the file, is {} at byte {} of the volume",
            c.old, c.place, c.new, c.written
        ),
        Field::Same => Ok(()),
    }
}

fn say_cuts(out: &impl Print, first: u32, count: u32) -> io::Result<()> {
    if count == 0 {
        println!(out; "dropped cuts: none")
    } else {
        println!(out; "dropped cuts: {count}, from cut {first} on")
    }
}

fn say_stretch(out: &impl Print, from: usize, to: usize) -> io::Result<()> {
    if from == to {
        println!(out; "dropped stretch: none")
    } else {
        println!(out; "dropped stretch: from byte {from} up to the end of the file at byte {to}")
    }
}

// The cut number changes only where cuts are dropped.
fn unchanged(r: Report) -> bool {
    matches!(r.state, Field::Same) && r.dropped_cuts == 0 && r.from == r.to
}

fn say_report(out: &impl Print, r: Report) -> io::Result<()> {
    if unchanged(r) {
        println!(out; "nothing changed: the file is complete")
    } else {
        say_field(out, "cut number", r.cut_number)?;
        say_field(out, "state of the last radial kept", r.state)?;
        say_cuts(out, r.first_dropped, r.dropped_cuts)?;
        say_stretch(out, r.from, r.to)
    }
}

fn say_refusal(out: &impl Print, refusal: Refusal) -> io::Result<()> {
    match refusal {
        Refusal::NothingWhole => println!(out; "no cut has two whole radials"),
        _ => println!(out; "the room is too short for the volume"),
    }
}

// The volume is the first bytes of the room.
pub(crate) fn say_mended(
    out: &impl Print,
    room: &[u8],
    mended: Result<(usize, Report), Refusal>,
) -> io::Result<()> {
    match mended {
        Ok((size, report)) => {
            say_report(out, report)?;
            print_volume(out, first(room, size))
        }
        Err(refusal) => {
            println!(out; "refused {} 0", refusal.number())?;
            say_refusal(out, refusal)
        }
    }
}
