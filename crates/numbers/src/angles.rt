// The four angles by their bits (document 02, #105): what is told of the small volume with these bits in the place of an angle.
// First the table of `crates/demands/specs/Floats.antt`, a line for each of its bits, with what is told of them as a latitude, a
// longitude, an azimuth and an elevation. Then, for each angle, runs of bits of which the same is told, by the first and the last:
// around each place where an answer may turn, and through all of the 2^32 patterns.
use crate::SMALL;
use printing::{first, print_verdict};
use reading::Verdict;
use std::io;

const LATITUDE: usize = 72;

const LONGITUDE: usize = 76;

const AZIMUTH: usize = 692;

const ELEVATION: usize = 696;

fn told(buf: &mut [u8; 65536], place: usize, bits: u32) -> Verdict {
    le::put_u32(buf, place, bits);
    let r = reading::read(first(buf, SMALL));
    le::put_u32(buf, place, 0);
    r.verdict
}

const PATTERNS: [u32; 32] = [
    // both zeros, the smallest numbers
    0x0000_0000,
    0x8000_0000,
    0x0000_0001,
    0x8000_0001,
    // -2, 90, -90, 180, -180, 360, each between its neighbours
    0xBFFF_FFFF,
    0xC000_0000,
    0xC000_0001,
    0x42B3_FFFF,
    0x42B4_0000,
    0x42B4_0001,
    0xC2B3_FFFF,
    0xC2B4_0000,
    0xC2B4_0001,
    0x4333_FFFF,
    0x4334_0000,
    0x4334_0001,
    0xC333_FFFF,
    0xC334_0000,
    0xC334_0001,
    0x43B3_FFFF,
    0x43B4_0000,
    0x43B4_0001,
    // the infinities, then NaNs, signalling and quiet
    0x7F80_0000,
    0xFF80_0000,
    0x7F80_0001,
    0x7FBF_FFFF,
    0xFF80_0001,
    0xFFBF_FFFF,
    0x7FC0_0000,
    0x7FFF_FFFF,
    0xFFC0_0000,
    0xFFFF_FFFF,
];

fn line(out: &impl Print, buf: &mut [u8; 65536], bits: u32) -> io::Result<()> {
    print!(out; "{bits:08x}:")?;
    print_verdict(out, told(buf, LATITUDE, bits))?;
    for place in [LONGITUDE, AZIMUTH, ELEVATION] {
        print!(out; ",")?;
        print_verdict(out, told(buf, place, bits))?;
    }
    println!(out)
}

// By hand: `reading` derives no equality for a verdict.
fn same(a: Verdict, b: Verdict) -> bool {
    match (a, b) {
        (Verdict::Complete, Verdict::Complete) => true,
        (Verdict::Open(m), Verdict::Open(n)) => m == n,
        (Verdict::Refused(m, p), Verdict::Refused(n, q)) => m == n && p == q,
        _ => false,
    }
}

fn print_run(out: &impl Print, from: u32, to: u32, v: Verdict) -> io::Result<()> {
    print!(out; "{from:08x} to {to:08x}:")?;
    print_verdict(out, v)?;
    println!(out)
}

// From a pattern on, each by a stride from the last, as many as there are turns and one more.
fn sweep(
    out: &impl Print,
    buf: &mut [u8; 65536],
    place: usize,
    start: u32,
    stride: u32,
    turns: usize,
) -> io::Result<()> {
    let mut from = start;
    let mut to = start;
    let mut v = told(buf, place, start);
    for _ in 0..turns {
        let next = to.wrapping_add(stride);
        let w = told(buf, place, next);
        if !same(v, w) {
            print_run(out, from, to, v)?;
            from = next;
            v = w;
        }
        to = next;
    }
    print_run(out, from, to, v)
}

// The 256 patterns on either side of one.
fn around(out: &impl Print, buf: &mut [u8; 65536], place: usize, bits: u32) -> io::Result<()> {
    sweep(out, buf, place, bits.wrapping_sub(256), 1, 512)
}

// A prime stride, so that every bit of the pattern takes part.
fn through(out: &impl Print, buf: &mut [u8; 65536], place: usize) -> io::Result<()> {
    sweep(out, buf, place, 0, 1_048_583, 4095)
}

fn sweeps(out: &impl Print, buf: &mut [u8; 65536], place: usize) -> io::Result<()> {
    let turning = [
        0x0000_0000,
        0x42B4_0000,
        0x4334_0000,
        0x43B4_0000,
        0x7F80_0000,
        0x7FC0_0000,
        0x8000_0000,
        0xC000_0000,
        0xC2B4_0000,
        0xC334_0000,
        0xFF80_0000,
        0xFFC0_0000,
    ];
    for bits in turning {
        around(out, buf, place, bits)?;
    }
    through(out, buf, place)
}

pub fn each(out: &impl Print, buf: &mut [u8; 65536]) -> io::Result<()> {
    println!(out; "bits: as latitude, longitude, azimuth, elevation")?;
    for bits in PATTERNS {
        line(out, buf, bits)?;
    }
    let angles = [
        ("latitude", LATITUDE),
        ("longitude", LONGITUDE),
        ("azimuth", AZIMUTH),
        ("elevation", ELEVATION),
    ];
    for (name, place) in angles {
        println!(out; "{name}")?;
        sweeps(out, buf, place)?;
    }
    Ok(())
}
