// Each refusal of the writer and of the index, once: the answer, and that the room and the state stay as they were.
use crate::records;
use crate::records::{Facts, Moments};
use crate::telling::{onward, print_index_answer, try_put};
use crate::volumes::{put_front, put_pair, put_radial, put_start, put_task};
use cut::Cut;
use printing::{first, sum};
use radial::Radial;
use std::io;
use walk::due::Walk;

// A radial with one moment of one-byte gates.
fn narrow(state: u8, sequence: u32, number: u32, cut: u32) -> Facts {
    Facts {
        moments: Moments::Narrow,
        state,
        sequence,
        number,
        cut,
    }
}

// The first radial of a volume.
fn opening() -> Radial {
    records::radial(narrow(3, 1, 1, 1))
}

fn try_header(
    out: &impl Print,
    label: &str,
    w: Walk,
    room: &mut [u8],
    header: Radial,
) -> io::Result<()> {
    try_put(
        out,
        label,
        w,
        room,
        |w, room| writer::put_radial(w, room, header),
    )
}

// A volume's first radial onto a state and a room as they are given.
fn try_radial(out: &impl Print, label: &str, w: Walk, room: &mut [u8]) -> io::Result<()> {
    try_header(out, label, w, room, opening())
}

fn after_the_end(out: &impl Print) -> io::Result<()> {
    let mut room = [0xa5u8; 1000];
    let w = put_pair(out, &mut room, 0, Moments::Narrow)?;
    try_radial(out, "25, a radial after the end", w, &mut room)
}

fn another_kind(out: &impl Print) -> io::Result<()> {
    let mut room = [0xa5u8; 1000];
    try_radial(
        out,
        "34, a radial before all else",
        Walk::begin(),
        &mut room,
    )
}

fn short_room(out: &impl Print) -> io::Result<()> {
    let mut room = [0xa5u8; 735];
    let w = put_front(out, &mut room, 0, 1)?;
    try_radial(out, "33, a room of 735 bytes", w, &mut room)
}

// A task onto a state and a room as they are given.
fn try_task(
    out: &impl Print,
    label: &str,
    w: Walk,
    room: &mut [u8],
    scan_type: u32,
    cuts: u32,
) -> io::Result<()> {
    let task = records::task(scan_type, cuts);
    try_put(
        out,
        label,
        w,
        room,
        |w, room| writer::put_task(w, room, task),
    )
}

fn too_many_cuts(out: &impl Print) -> io::Result<()> {
    let mut room = [0xa5u8; 1000];
    try_task(
        out,
        "34 ahead of 8, 257 cuts before all else",
        Walk::begin(),
        &mut room,
        0,
        257,
    )?;
    let w = put_start(out, &mut room)?;
    try_task(out, "8, 257 cuts", w, &mut room, 0, 257)?;
    let mut short = [0xa5u8; 160];
    let v = put_start(out, &mut short)?;
    try_task(
        out,
        "8 ahead of 33, 257 cuts in a room of 160 bytes",
        v,
        &mut short,
        0,
        257,
    )
}

// Type 2 in two layers; in type 5 of two layers, the first closed by 2, and the second opened by 0.
fn layers(out: &impl Print) -> io::Result<()> {
    let mut room = [0xa5u8; 1500];
    let u = put_start(out, &mut room)?;
    try_task(out, "8, type 2 in two layers", u, &mut room, 2, 2)?;
    let mut w = put_front(out, &mut room, 5, 2)?;
    w = put_radial(out, w, &mut room, narrow(5, 1, 1, 1))?;
    let closing = records::radial(narrow(2, 2, 2, 1));
    try_header(out, "10, a layer closed by 2", w, &mut room, closing)?;
    w = put_radial(out, w, &mut room, narrow(6, 2, 2, 1))?;
    let second = records::radial(narrow(0, 3, 1, 2));
    try_header(out, "10, a layer opened by 0", w, &mut room, second)
}

fn try_cut(out: &impl Print, label: &str, w: Walk, room: &mut [u8], cut: Cut) -> io::Result<()> {
    try_put(out, label, w, room, |w, room| writer::put_cut(w, room, cut))
}

// A cut of no type, which no radial can be in, in a room that ends before it.
fn no_type(out: &impl Print) -> io::Result<()> {
    let mut room = [0xa5u8; 416];
    let mut cut = records::cut();
    cut.moments_mask = 0;
    try_cut(
        out,
        "34 ahead of 40, a cut of no type before all else",
        Walk::begin(),
        &mut room,
        cut,
    )?;
    let v = put_start(out, &mut room)?;
    let w = put_task(out, v, &mut room, 0, 1)?;
    try_cut(
        out,
        "40 ahead of 33, a cut of no type in a room of 416 bytes",
        w,
        &mut room,
        cut,
    )?;
    cut.process_mode = 0;
    try_cut(
        out,
        "9 ahead of 40, a cut of no type and process mode 0",
        w,
        &mut room,
        cut,
    )
}

// More moments than the cut has types, in a room that ends before the header.
fn no_moments(out: &impl Print) -> io::Result<()> {
    let mut room = [0xa5u8; 672];
    let w = put_front(out, &mut room, 0, 1)?;
    let mut header = opening();
    header.moment_number = 3;
    header.length_of_data = 132;
    try_header(
        out,
        "40 ahead of 33, three moments of two types",
        w,
        &mut room,
        header,
    )?;
    header.spot_blank = 2;
    try_header(
        out,
        "11 ahead of 40, three moments of two types and spot blank 2",
        w,
        &mut room,
        header,
    )
}

// Of twelve bytes for both types, five for the one-byte type leave seven for the two-byte one, which has an even number.
fn odd_rest(out: &impl Print) -> io::Result<()> {
    let mut room = [0xa5u8; 736];
    let v = put_front(out, &mut room, 0, 1)?;
    let mut both = narrow(3, 1, 1, 1);
    both.moments = Moments::Both;
    let w = onward(out, writer::put_radial(v, &mut room, records::radial(both)))?;
    let mut header = records::moment(2, 1);
    header.length = 5;
    try_put(
        out,
        "40 ahead of 33, seven bytes for a two-byte type",
        w,
        &mut room,
        |w, room| writer::put_moment(w, room, header),
    )
}

fn short_data(out: &impl Print) -> io::Result<()> {
    let mut room = [0xa5u8; 1000];
    let u = put_front(out, &mut room, 0, 1)?;
    let v = onward(out, writer::put_radial(u, &mut room, opening()))?;
    let w = onward(out, writer::put_moment(v, &mut room, records::moment(2, 1)))?;
    try_put(
        out,
        "35, three bytes of four",
        w,
        &mut room,
        |w, room| writer::put_data(w, room, b"\x05\x06\x07"),
    )
}

// States whose count of bytes does not agree with the room.
fn other_ends(out: &impl Print) -> io::Result<()> {
    let mut room = [0xa5u8; 1000];
    let mut w = put_front(out, &mut room, 0, 1)?;
    w.at = 1001;
    try_radial(out, "37, more bytes than the room has", w, &mut room)?;
    w.at = 600;
    try_radial(out, "37, the end is inside a block", w, &mut room)
}

// A state and a room that do not agree on what is written.
fn other_blocks(out: &impl Print) -> io::Result<()> {
    let mut room = [0xa5u8; 1000];
    let w = put_front(out, &mut room, 0, 1)?;
    let mut other = w;
    other.plan.cuts = 2;
    try_radial(out, "37, another number of cuts", other, &mut room)?;
    room[0] = 0;
    try_radial(out, "37, another first byte", w, &mut room)?;
    room[0] = 0x52;
    room[500] = 0;
    try_radial(out, "37, a cut of no type", w, &mut room)
}

// The room of an index, before and after what is refused.
fn try_index(out: &impl Print, label: &str, file: &[u8], room: &mut [u8]) -> io::Result<()> {
    let before = sum(room);
    let answer = index::write(file, room);
    print!(out; "{label}:")?;
    print_index_answer(out, answer, |n| print!(out; " written {n}"))?;
    println!(out; ", room {before} {}", sum(room))
}

fn index_refusals(out: &impl Print) -> io::Result<()> {
    let mut file = [0xa5u8; 1000];
    let w = put_pair(out, &mut file, 0, Moments::Narrow)?;
    let mut room = [0xa5u8; 22];
    try_index(
        out,
        "36, an index of an open file",
        first(&file, 871),
        &mut room,
    )?;
    try_index(
        out,
        "33, a room of 22 bytes for an index of 23",
        first(&file, w.at),
        &mut room,
    )
}

pub(crate) fn run(out: &impl Print) -> io::Result<()> {
    after_the_end(out)?;
    another_kind(out)?;
    too_many_cuts(out)?;
    layers(out)?;
    no_type(out)?;
    no_moments(out)?;
    odd_rest(out)?;
    short_data(out)?;
    short_room(out)?;
    other_ends(out)?;
    other_blocks(out)?;
    index_refusals(out)
}
