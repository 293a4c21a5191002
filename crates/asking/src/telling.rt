// What is printed of a list in one line: how many questions were answered, or the refusal; and the checksums of all of both rooms, so that
// no entry is stored unseen.
use crate::rooms::{ListRooms, sum_signed};
use printing::{fill, sum};
use std::io;

// In rooms that are filled with AA before.
pub(crate) fn print_answer(
    out: &impl Print,
    file: &[u8],
    index: &[u8],
    rooms: ListRooms,
) -> io::Result<()> {
    let ListRooms {
        radials,
        types,
        gates,
        kinds,
        hundredths,
    } = rooms;
    fill(kinds, 0xAA);
    hundredths.fill(le::i32_of(0xAAAA_AAAA));
    let answer = engine::answer(file, index, radials, types, gates, kinds, hundredths);
    let kinds = sum(kinds);
    let hundredths = sum_signed(hundredths);
    match answer {
        Ok(n) => println!(out; "filled {n} {kinds} {hundredths}"),
        Err(refusal) => println!(out; "refused {} 0 {kinds} {hundredths}", refusal.number()),
    }
}
