// The picked volume, laid into a room. The radials of a complete file stand one behind the other, and a header says where its radial ends.
ghost use Rattle.std.specs.Prelude.{◌≡◌, ◌+◌, ◌≤◌, length};
ghost use Rattle.le.specs.Le.{part, patch, run};
ghost use Rattle.cut.specs.Cut.{cut_size};
ghost use Rattle.radial.specs.Radial.{radial_size};
ghost use Rattle.reading.specs.Reading.{stretches};
ghost use Rattle.walk.specs.Due.{cut_place};
ghost use Rattle.mend.specs.Mend.{cut_number};
ghost use Rattle.pick.specs.Keep.{kept_bytes, kept_of, picked_radial};
ghost use Rattle.pick.specs.Pick.{Complete, cut_blocks, picked, picked_cut, picked_radials, radials_at};

use crate::keep::{Kept, moment, wants};
use cut::Cut;
use generic::Generic;
use radial::Radial;
use site::Site;
use task::Task;
use walk::due::cut_place;

// How many cuts there are, as the task says.
fn cuts(file: &[u8]) -> u32
    ensures { result ≡ cut_number file.now }
{
    le::u32_at(file, Generic::SIZE + Site::SIZE + Task::CUT_NUMBER)
}

// Where the first radial starts: behind the last cut's block.
pub(crate) fn first_radial(file: &[u8]) -> usize
    ensures { result ≡ radials_at file.now }
{
    cut_place(cuts(file)) + Cut::SIZE
}

// The cut block at a place, with its mask cut down.
fn lay_cut(file: &[u8], wanted: u64, room: &mut [u8], at: usize)
    requires cut_size_in_bounds { at + cut_size ≤ length file.now }
    requires cut_size_in_bounds_2 { at + cut_size ≤ length room.old }
    ensures { room.new ≡ patch room.old at (picked_cut wanted (part cut_size file.now at)) }
{
    let end = at + Cut::SIZE;
    let mask = at + Cut::MOMENTS_MASK;
    le::put(room, at, &file[at..end]);
    le::put_u64(room, mask, le::u64_at(file, mask) & wanted);
}

// The wanted moments of a radial, each in one run.
fn lay_moments(b: &[u8], wanted: u64, room: &mut [u8], to: usize) -> Kept
    requires { to + length (kept_bytes wanted b.now) ≤ length room.old }
    ensures value { result ≡ kept_of wanted b.now }
    ensures room_after { room.new ≡ patch room.old to (kept_bytes wanted b.now) }
{
    let mut p = moments::first(b);
    let mut count = 0;
    let mut end = to;
    loop {
        match moments::next(b, p) {
            Some((at, q)) => {
                if wants(b, at, wanted) {
                    let m = moment(b, at, q.at);
                    le::put(room, end, m);
                    count += 1;
                    end += m.len();
                }
                p = q;
            }
            None => {
                return Kept {
                    moments: count,
                    bytes: end - to,
                };
            }
        }
    }
}

// A radial with its wanted moments only; the place behind it.
fn lay_radial(b: &[u8], wanted: u64, room: &mut [u8], to: usize) -> usize
    requires radial_size_in_bounds { radial_size ≤ length b.now }
    requires b_in_bounds { to + radial_size + length (kept_bytes wanted b.now) ≤ length room.old }
    ensures value { result ≡ to + radial_size + length (kept_bytes wanted b.now) }
    ensures room_after { room.new ≡ patch room.old to (picked_radial wanted b.now) }
{
    // By way of an array: so short a run from slice to slice is copied byte by byte.
    let head: [u8; Radial::SIZE] = le::bytes_at(b, 0);
    le::put_bytes(room, to, head);
    let kept = lay_moments(b, wanted, room, to + Radial::SIZE);
    le::put_u32(
        room,
        to + Radial::LENGTH_OF_DATA,
        (kept.bytes % 4294967296) as u32,
    );
    le::put_u32(
        room,
        to + Radial::MOMENT_NUMBER,
        (kept.moments % 4294967296) as u32,
    );
    to + Radial::SIZE + kept.bytes
}

// The cut blocks, each where it stands in the file.
fn lay_cuts(file: &[u8], wanted: u64, room: &mut [u8])
    requires complete { Complete file.now }
    requires file_in_bounds { radials_at file.now ≤ length room.old }
    ensures { room.new ≡ patch room.old (cut_place 1) (run (picked_cut wanted) (cut_blocks file.now)) }
{
    for before in 0..cuts(file) {
        lay_cut(file, wanted, room, cut_place(before + 1));
    }
}

fn lay_radials(file: &[u8], wanted: u64, radials: usize, room: &mut [u8])
    requires complete { Complete file.now }
    requires radials_value { radials ≡ length (stretches file.now) }
    requires file_in_bounds { radials_at file.now + length (picked_radials wanted file.now) ≤ length room.old }
    ensures { room.new ≡ patch room.old (radials_at file.now) (picked_radials wanted file.now) }
{
    let mut at = first_radial(file);
    let mut to = at;
    for _ in 0..radials {
        let end = at + Radial::SIZE + (le::u32_at(file, at + Radial::LENGTH_OF_DATA) as usize);
        to = lay_radial(&file[at..end], wanted, room, to);
        at = end;
    }
}

pub(crate) fn lay(file: &[u8], wanted: u64, radials: usize, room: &mut [u8])
    requires complete { Complete file.now }
    requires radials_value { radials ≡ length (stretches file.now) }
    requires file_in_bounds { length (picked wanted file.now) ≤ length room.old }
    ensures { room.new ≡ patch room.old 0 (picked wanted file.now) }
{
    let first = cut_place(1);
    le::put(room, 0, &file[..first]);
    lay_cuts(file, wanted, room);
    lay_radials(file, wanted, radials, room);
}
