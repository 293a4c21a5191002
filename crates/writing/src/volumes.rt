// The volumes, written one block at a time.
ghost use Rattle.std.specs.Prelude.{◌+◌, ◌^◌, ◌<◌, length};

use crate::records;
use crate::records::{Facts, Moments};
use crate::telling::onward;
use std::io;
use walk::due::Walk;

// The blocks before the task.
pub(crate) fn put_start(out: &impl Print, room: &mut [u8]) -> io::Result<Walk> {
    let w = onward(
        out,
        writer::put_generic(Walk::begin(), room, records::generic()),
    )?;
    onward(out, writer::put_site(w, room, records::site()))
}

pub(crate) fn put_task(
    out: &impl Print,
    w: Walk,
    room: &mut [u8],
    scan_type: u32,
    cuts: u32,
) -> io::Result<Walk> {
    onward(
        out,
        writer::put_task(w, room, records::task(scan_type, cuts)),
    )
}

// The blocks up to the radials.
pub(crate) fn put_front(
    out: &impl Print,
    room: &mut [u8],
    scan_type: u32,
    cuts: u32,
) -> io::Result<Walk> {
    let start = put_start(out, room)?;
    let mut w = put_task(out, start, room, scan_type, cuts)?;
    for _ in 0..cuts {
        w = onward(out, writer::put_cut(w, room, records::cut()))?;
    }
    Ok(w)
}

// A moment, by its type, the bytes of a gate and its data.
fn put_moment(
    out: &impl Print,
    w: Walk,
    room: &mut [u8],
    data_type: u32,
    bytes: u16,
    data: &[u8],
) -> io::Result<Walk> {
    let header = records::moment(data_type, bytes);
    let v = onward(out, writer::put_moment(w, room, header))?;
    onward(out, writer::put_data(v, room, data))
}

// A radial, with its sequence number's lowest byte in the last gate of each of its moments.
pub(crate) fn put_radial(out: &impl Print, w: Walk, room: &mut [u8], f: Facts) -> io::Result<Walk> {
    let mut v = onward(out, writer::put_radial(w, room, records::radial(f)))?;
    let last = (f.sequence % 256) as u8;
    if f.moments != Moments::Wide {
        v = put_moment(out, v, room, 2, 1, &[0, 1, 66, last])?;
    }
    if f.moments != Moments::Narrow {
        v = put_moment(out, v, room, 4, 2, &[0, 0, 5, 1, 66, 0, last, 2])?;
    }
    Ok(v)
}

// The radials of a cut, by their states, from a sequence number on.
pub(crate) fn put_radials(
    out: &impl Print,
    w: Walk,
    room: &mut [u8],
    moments: Moments,
    cut: u32,
    sequence: u32,
    states: &[u8],
) -> io::Result<Walk>
    requires { sequence + length states.now < 2 ^ 32 }
{
    let mut v = w;
    for (i, state) in states.iter().enumerate() {
        let facts = Facts {
            moments,
            state: *state,
            sequence: sequence + i as u32,
            number: i as u32 + 1,
            cut,
        };
        v = put_radial(out, v, room, facts)?;
    }
    Ok(v)
}

// One cut of two radials.
pub(crate) fn put_pair(
    out: &impl Print,
    room: &mut [u8],
    scan_type: u32,
    moments: Moments,
) -> io::Result<Walk> {
    let w = put_front(out, room, scan_type, 1)?;
    put_radials(out, w, room, moments, 1, 1, &[3, 4])
}
