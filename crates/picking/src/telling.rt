// What is printed of a pick in one line: the volume's length and what reading tells of it, or the refusal; and the checksum of all of the
// room, so that no byte is stored unseen.
use pick::Picked;
use printing::{first, print_verdict, sum};
use std::io;

// The volume is the first bytes of the room.
pub(crate) fn print_picked(out: &impl Print, room: &[u8], picked: Picked) -> io::Result<()> {
    match picked {
        Picked::Written(size) => {
            let r = reading::read(first(room, size));
            print!(out; "written {size}")?;
            print_verdict(out, r.verdict)?;
            println!(out; " {} {}", r.radials, sum(room))
        }
        Picked::Refused(n, place) => println!(out; "refused {n} {place} {}", sum(room)),
    }
}
