// What is printed of a mended file in one line: the report's numbers, what reading tells of the written volume, and the checksum of all of
// the room, so that no byte is stored unseen.
use mend::report::{Field, Report};
use printing::{first, print_verdict, sum};
use refusal::Refusal;
use std::io;

// Nothing of a field that is not named.
fn print_field(out: &impl Print, name: &str, field: Field) -> io::Result<()> {
    match field {
        Field::Changed(c) => print!(out; " {name} {} {} {} {}", c.place, c.written, c.old, c.new),
        Field::Same => Ok(()),
    }
}

fn print_report(out: &impl Print, r: Report) -> io::Result<()> {
    print_field(out, "cut number", r.cut_number)?;
    print_field(out, "state", r.state)?;
    print!(out;
        " cuts {} {} stretch {} {}",
        r.first_dropped, r.dropped_cuts, r.from, r.to
    )
}

// The volume is the first bytes of the room.
pub(crate) fn print_mended(
    out: &impl Print,
    room: &[u8],
    mended: Result<(usize, Report), Refusal>,
) -> io::Result<()> {
    match mended {
        Ok((size, report)) => {
            let r = reading::read(first(room, size));
            print!(out; "written {size}")?;
            print_report(out, report)?;
            print_verdict(out, r.verdict)?;
            println!(out; " {} {}", r.radials, sum(room))
        }
        Err(refusal) => println!(out; "refused {} 0 {}", refusal.number(), sum(room)),
    }
}
