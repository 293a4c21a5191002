// What is printed for the command line: the answers, a line each, or the index; of a refusal the number and the place, and in the next line
// what it means.
use crate::rooms::ListRooms;
use printing::{first, print_volume};
use refusal::Refusal;
use std::io;

fn say_refusal(out: &impl Print, refusal: Refusal) -> io::Result<()> {
    match refusal {
        Refusal::NotComplete => println!(out; "the file is not complete"),
        Refusal::WrongIndex => println!(out; "the index is not right for the file"),
        _ => println!(out; "no room"),
    }
}

fn say_refused(out: &impl Print, refusal: Refusal) -> io::Result<()> {
    println!(out; "refused {} 0", refusal.number())?;
    say_refusal(out, refusal)
}

fn say_entries(out: &impl Print, kinds: &[u8], hundredths: &[i32]) -> io::Result<()> {
    for (kind, hundredth) in kinds.iter().zip(hundredths) {
        println!(out; "{kind} {hundredth}")?;
    }
    Ok(())
}

pub(crate) fn say_answer(
    out: &impl Print,
    file: &[u8],
    index: &[u8],
    rooms: ListRooms,
) -> io::Result<()> {
    let ListRooms {
        radials,
        types,
        gates,
        kinds,
        hundredths,
    } = rooms;
    match engine::answer(file, index, radials, types, gates, kinds, hundredths) {
        Ok(n) => {
            println!(out; "answered {n}")?;
            say_entries(out, first(kinds, n), hundredths)
        }
        Err(refusal) => say_refused(out, refusal),
    }
}

pub(crate) fn say_written(out: &impl Print, file: &[u8], room: &mut [u8]) -> io::Result<()> {
    match index::write(file, room) {
        Ok(size) => print_volume(out, first(room, size)),
        Err(refusal) => say_refused(out, refusal),
    }
}
