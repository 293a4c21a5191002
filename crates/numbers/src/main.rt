// Runs the numbers of document 01 that are run ("Numbers to try"), the four angles by their bits (document 02, #105), and an RHI of
// six layers (document 02, #103) and a cloud radar's file, which follow each other on standard input: for each file, a line of
// what reading tells, its verdict, the bytes read and the whole radials; of the angles the verdict alone.
#![tactic(auto)]

mod angles;

ghost use Rattle.std.specs.Prelude.{◌≤◌, length};

use printing::{behind, first, print_reading, print_verdict, read_full};
use reading::{Reading, Verdict};
use std::{io, mem};

// The blocks before the radials of the small volume. Here and below, a byte that no rule asks for is 0.
fn front_byte(at: usize) -> u8 {
    match at {
        // generic header at 0: magic, generic type
        0 => 0x52,
        1 => 0x53,
        2 => 0x54,
        3 => 0x4d,
        8 => 1,
        // task at 160: polarization, cut number
        320 => 1,
        336 => 1,
        // cut at 416: process mode, unfold mode, both resolutions, phase mode, moments mask
        416 => 1,
        432 => 1,
        460 => 250,
        464 => 250,
        488 => 1,
        500 => 2,
        _ => 0,
    }
}

// A radial of the small volume, with its moment and four gates.
fn radial_byte(at: usize, state: u8, sequence: u8) -> u8 {
    match at {
        0 => state,
        8 => sequence,
        // radial number, which is the sequence number in a volume of one cut; elevation number
        12 => sequence,
        16 => 1,
        // length of data, moment number
        36 => 36,
        40 => 1,
        // the moment's type, scale, offset, bin length, length
        64 => 2,
        68 => 2,
        72 => 66,
        76 => 1,
        80 => 4,
        _ => 0,
    }
}

fn small_byte(at: usize) -> u8 {
    match at {
        0..=671 => front_byte(at),
        672..=771 => radial_byte(at - 672, 3, 1),
        772..=871 => radial_byte(at - 772, 4, 2),
        _ => 0,
    }
}

fn fill(room: &mut [u8]) {
    for (at, byte) in room.iter_mut().enumerate() {
        *byte = small_byte(at);
    }
}

const SMALL: usize = 872;

// The small volume, and one byte more.
fn small() -> [u8; 873] {
    let mut v = [0u8; 873];
    fill(&mut v);
    v
}

fn read_first(file: &[u8], n: usize) -> Reading {
    reading::read(first(file, n))
}

fn tell(out: &impl Print, label: &str, file: &[u8], n: usize) -> io::Result<()> {
    print!(out; "{label}")?;
    print_reading(out, read_first(file, n))
}

fn wrong_magic(out: &impl Print) -> io::Result<()> {
    let mut v = small();
    v[0] = 0;
    tell(out, "empty:", &v, 0)?;
    tell(out, "wrong magic, 31 bytes:", &v, 31)?;
    tell(out, "wrong magic, 32 bytes:", &v, 32)
}

// Up to 256 (document 02, #106).
fn cut_numbers(out: &impl Print) -> io::Result<()> {
    let mut v = small();
    for n in [50, 51, 256, 257] {
        le::put_u32(&mut v, 336, n);
        print!(out; "cut number {n}")?;
        tell(out, ":", &v, SMALL)?;
    }
    Ok(())
}

// As many as of any task for scan type 5, and one for scan type 2, of which the first radial's state then is wrong.
fn cut_numbers_of_rhi(out: &impl Print) -> io::Result<()> {
    let mut v = small();
    for (scan_type, n) in [(5, 256), (5, 257), (2, 2), (2, 1)] {
        le::put_u32(&mut v, 324, scan_type);
        le::put_u32(&mut v, 336, n);
        print!(out; "cut number {n}, scan type {scan_type}")?;
        tell(out, ":", &v, SMALL)?;
    }
    Ok(())
}

fn microseconds(out: &impl Print) -> io::Result<()> {
    let mut v = small();
    for n in [999_999, 1_000_000] {
        le::put_u32(&mut v, 704, n);
        print!(out; "microseconds {n}")?;
        tell(out, ":", &v, SMALL)?;
    }
    Ok(())
}

fn lengths(out: &impl Print) -> io::Result<()> {
    let v = small();
    tell(out, "small volume:", &v, SMALL)?;
    tell(out, "its first 871:", &v, 871)?;
    tell(out, "one byte added:", &v, 873)
}

// Whether one byte more reads no more, and wants one byte less.
fn goes_on(a: Reading, b: Reading) -> bool {
    match (a.verdict, b.verdict) {
        (Verdict::Open(m), Verdict::Open(n)) => {
            a.read == b.read && a.radials == b.radials && 0 < m && m - 1 == n
        }
        _ => false,
    }
}

// The last length of the run of prefixes that starts with one.
fn run_end(file: &[u8], first: usize) -> usize
    requires { first ≤ length file.now }
    ensures { (first ≤ result) × (result ≤ length file.now) }
{
    let mut r = read_first(file, first);
    for last in first..file.len() {
        let next = read_first(file, last + 1);
        if !goes_on(r, next) {
            return last;
        }
        r = next;
    }
    file.len()
}

fn print_run(out: &impl Print, file: &[u8], first: usize, last: usize) -> io::Result<()> {
    print!(out; "prefixes {first} to {last}:")?;
    print_verdict(out, read_first(file, first).verdict)?;
    print!(out; " to")?;
    print_reading(out, read_first(file, last))
}

// Every prefix of a volume, by runs of lengths at which the same is read and each byte more wants one less.
fn prefixes(out: &impl Print, file: &[u8]) -> io::Result<()> {
    // By hand: a run says where it ends, so the next step is no count.
    let mut first = 0;
    while first <= file.len() {
        let last = run_end(file, first);
        print_run(out, file, first, last)?;
        first = last + 1;
    }
    Ok(())
}

// What is told of the first n bytes with another byte at a place, which holds the old one again afterwards.
fn with_byte(
    out: &impl Print,
    buf: &mut [u8; 65536],
    n: usize,
    place: usize,
    value: u8,
) -> io::Result<()> {
    if place < 65536 {
        let old = mem::replace(&mut buf[place], value);
        print!(out; "at {place} {value}")?;
        tell(out, ":", buf, n)?;
        buf[place] = old;
    }
    Ok(())
}

// Every state, and every scan type, is among the numbers 0 to 6; 7 is neither.
fn with_each(out: &impl Print, buf: &mut [u8; 65536], n: usize, place: usize) -> io::Result<()> {
    for value in 0..8 {
        with_byte(out, buf, n, place, value)?;
    }
    Ok(())
}

// Each state in the places of the small volume's two, and then its angles.
fn small_changed(out: &impl Print) -> io::Result<()> {
    let mut buf = [0u8; 65536];
    fill(&mut buf);
    with_each(out, &mut buf, SMALL, 672)?;
    with_each(out, &mut buf, SMALL, 772)?;
    angles::each(out, &mut buf)
}

// The bytes of the six layers, behind which the cloud radar's file begins.
const LAYERS: usize = 3360;

// An RHI of six layers (document 02, #103): each scan type; each state in the places of its radials', of which five cuts have
// two and the last has three; every prefix.
fn layers(out: &impl Print, buf: &mut [u8; 65536]) -> io::Result<()> {
    tell(out, "six layers:", buf, LAYERS)?;
    let places = [
        324, 1952, 2052, 2152, 2252, 2388, 2488, 2588, 2688, 2824, 2924, 3024, 3124, 3260,
    ];
    for place in places {
        with_each(out, buf, LAYERS, place)?;
    }
    prefixes(out, first(buf, LAYERS))
}

fn tell_cloud(out: &impl Print, label: &str, buf: &[u8; 65536]) -> io::Result<()> {
    tell(out, label, behind(buf, LAYERS), 1216)
}

// A cloud radar's file has a volume's magic and other blocks (source document 002). Its station's heights stand where a
// volume has latitude and longitude, so a high station is refused there; a low one in the task, where a volume has the
// polarization and this file a text.
fn cloud_radar(out: &impl Print, buf: &mut [u8; 65536]) -> io::Result<()> {
    tell_cloud(out, "cloud radar:", buf)?;
    // antenna and ground at 512 and 508 metres
    buf[LAYERS + 74] = 0;
    buf[LAYERS + 75] = 0x44;
    buf[LAYERS + 78] = 0xfe;
    buf[LAYERS + 79] = 0x43;
    tell_cloud(out, "cloud radar, high station:", buf)?;
    // generic type 3
    buf[LAYERS + 8] = 3;
    tell_cloud(out, "cloud radar, spectra:", buf)
}

fn main(rt: HostRuntime) -> io::Result<()> {
    wrong_magic(&rt)?;
    cut_numbers(&rt)?;
    cut_numbers_of_rhi(&rt)?;
    microseconds(&rt)?;
    lengths(&rt)?;
    let v = small();
    prefixes(&rt, &v[0..SMALL])?;
    small_changed(&rt)?;
    let mut buf = [0u8; 65536];
    read_full(&mut rt.stdin(), &mut buf)?;
    layers(&rt, &mut buf)?;
    cloud_radar(&rt, &mut buf)
}
