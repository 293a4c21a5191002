// Rows, in rooms whose places hold a mark before.
use crate::checksum::{mix, mix_signed};
use ask::answers;
use refusal::Refusal;
use std::io;

fn print_answer(out: &impl Print, answer: Result<usize, Refusal>) -> io::Result<()> {
    match answer {
        Ok(n) => print!(out; "{n}"),
        Err(refusal) => print!(out; "no{}", refusal.number()),
    }
}

// All places of both rooms, those past a row among them.
fn sum(kinds: &[u8; 16], hundredths: &[i32; 16]) -> u64 {
    kinds
        .iter()
        .zip(hundredths)
        .fold(0, |s, (kind, z)| mix_signed(mix(s, u64::from(*kind)), *z))
}

// The last place of each room, which no row of the volume fills, and the checksum.
fn print_rooms(out: &impl Print, kinds: &[u8; 16], hundredths: &[i32; 16]) -> io::Result<()> {
    print!(out;
        "/{}/{}/{}",
        kinds[15],
        hundredths[15],
        sum(kinds, hundredths)
    )
}

// A row, with the first so many of the 16 places of each room lent.
pub(crate) fn print_row(
    out: &impl Print,
    file: &[u8],
    sequence: u32,
    t: u32,
    kinds_lent: usize,
    hundredths_lent: usize,
) -> io::Result<()> {
    let mut kinds = [9u8; 16];
    let mut hundredths = [7i32; 16];
    let answer = answers::row(
        file,
        sequence as usize,
        t,
        &mut kinds[..kinds_lent.min(16)],
        &mut hundredths[..hundredths_lent.min(16)],
    );
    print_answer(out, answer)?;
    print_rooms(out, &kinds, &hundredths)
}

// A line of its own.
pub(crate) fn print_lent(
    out: &impl Print,
    file: &[u8],
    sequence: u32,
    t: u32,
    kinds_lent: usize,
    hundredths_lent: usize,
) -> io::Result<()> {
    print!(out; "row {sequence} {t} in {kinds_lent} {hundredths_lent}: ")?;
    print_row(out, file, sequence, t, kinds_lent, hundredths_lent)?;
    println!(out)
}
