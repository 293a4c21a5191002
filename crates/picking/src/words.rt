// What is printed of a pick for the command line: the volume; or the refusal, and in the next line what it means.
use pick::Picked;
use printing::{first, print_volume};
use std::io;

fn say_refusal(out: &impl Print, n: u32) -> io::Result<()> {
    match n {
        36 => println!(out; "the file is not complete"),
        60 => println!(out; "the radial there would have no moment left"),
        _ => println!(out; "the room is too short for the volume"),
    }
}

// The volume is the first bytes of the room.
pub(crate) fn say_picked(out: &impl Print, room: &[u8], picked: Picked) -> io::Result<()> {
    match picked {
        Picked::Written(size) => print_volume(out, first(room, size)),
        Picked::Refused(n, place) => {
            println!(out; "refused {n} {place}")?;
            say_refusal(out, n)
        }
    }
}
