// The bytes of an import laid down in the room, once all of it is settled.
ghost use Rattle.std.specs.Prelude.{◌≡◌, ◌+◌, ◌≤◌, true, ◌++◌, length};
ghost use Rattle.le.specs.Le.{patch, run};
ghost use Rattle.generic.specs.Generic.{generic_bytes};
ghost use Rattle.radial.specs.Radial.{radial_size};
ghost use Rattle.site.specs.Site.{site_bytes};
ghost use Rattle.task.specs.Task.{task_bytes};
ghost use Rattle.walk.specs.Due.{cut_place};
ghost use Rattle.writer.specs.Block.{bytes_of};
ghost use Rattle.retold.specs.Retold.{moment_blocks, radial_blocks};
ghost use Rattle.old.specs.Old.{old_size, counts_ok};
ghost use Rattle.old.specs.Headers.{gates_of, place_of, moment_length, data_length};
ghost use Rattle.old.specs.Shelf.{radials_in};
ghost use Rattle.shelf.specs.Import.{moment_of, moments_of};
ghost use Rattle.shelf.specs.Settled.{radial_next, laid_bytes, lay_over, lay_first};

use crate::settle::{radial_next, settle_over};
use generic::Generic;
use moment::Moment;
use old::codes::Quantity;
use old::record::OldRadial;
use old::{codes, file, headers};
use radial::Radial;
use site::Site;
use task::Task;
use walk::due::{Walk, cut_place};
use writer::order::{Answer, Put};

// Our records, where a volume begins. The cut records are there as the bytes that they will be.
pub(crate) fn lay_ours(g: Generic, s: Site, t: Task, cuts: &[u8], room: &mut [u8])
    requires { cut_place 1 + length cuts.now ≤ length room.old }
    ensures { room.new ≡ patch room.old 0 (generic_bytes g ++ site_bytes s ++ task_bytes t ++ cuts.now) }
{
    g.write(room, 0);
    s.write(room, Generic::SIZE);
    t.write(room, Generic::SIZE + Site::SIZE);
    le::put(room, cut_place(1), cuts);
}

// A moment of the old radial at a place, and the place behind it in the room. Our codes go straight into the room.
fn lay_moment(
    room: &mut [u8],
    at: usize,
    old: &[u8],
    from: usize,
    o: OldRadial,
    q: Quantity,
) -> usize
    requires { (at + moment_length (gates_of q o) ≤ length room.old) × (from + place_of q o + gates_of q o ≤ length old.now) }
    ensures { (result ≡ at + moment_length (gates_of q o)) × (room.new ≡ patch room.old at (run bytes_of (moment_blocks (moment_of q o old.now from)))) }
{
    let n = headers::gates(q, o);
    if n == 0 {
        return at;
    }
    headers::moment_from(q, o.resolution, n).write(room, at);
    codes::put_moment(room, at + Moment::SIZE, old, from + headers::place(q, o), n);
    at + headers::moment_length(n) as usize
}

// All blocks of the old radial at a place.
fn lay_here(room: &mut [u8], at: usize, old: &[u8], from: usize, o: OldRadial, r: Radial)
    requires { (at + radial_size + data_length o ≤ length room.old) × (from + old_size ≤ length old.now) × (counts_ok o.reflectivity o.doppler ≡ true) }
    ensures { room.new ≡ patch room.old at (run bytes_of (radial_blocks r (moments_of o old.now from))) }
{
    r.write(room, at);
    let next = lay_moment(
        room,
        at + Radial::SIZE,
        old,
        from,
        o,
        Quantity::Reflectivity,
    );
    let next = lay_moment(room, next, old, from, o, Quantity::Velocity);
    lay_moment(room, next, old, from, o, Quantity::Width);
}

// The same, with its counts from the state, where there is room for it.
fn lay(w: Walk, old: &[u8], from: usize, o: OldRadial, room: &mut [u8])
    requires { (from + old_size ≤ length old.now) × (counts_ok o.reflectivity o.doppler ≡ true) }
    ensures { room.new ≡ laid_bytes room.old w.at (run bytes_of (radial_blocks (radial_next o w) (moments_of o old.now from))) }
{
    let at = w.at;
    let r = radial_next(o, w);
    if le::has(room.len(), at, Radial::SIZE + r.length_of_data as usize) {
        lay_here(room, at, old, from, o, r);
    }
}

// The old radial at a place, where it is settled so, and the state behind it.
fn lay_over(w: Walk, cuts: &[u8], old: &[u8], from: usize, room: &mut [u8]) -> Walk
    requires { from + old_size ≤ length old.now }
    ensures { record { walk = result; room = room.new } ≡ lay_over cuts.now old.now from (record { walk = w; room = room.old }) }
{
    let o = OldRadial::read(old, from);
    let p = Put {
        answer: Answer::Taken,
        walk: w,
    };
    let q = settle_over(p, cuts, room, o, from);
    let answer = q.answer;
    match answer {
        Answer::Taken => {
            lay(w, old, from, o, room);
            q.walk
        }
        Answer::Refused(_, _) => q.walk,
    }
}

// Every radial of the old file.
pub(crate) fn lay_all(first: Walk, cuts: &[u8], old: &[u8], room: &mut [u8])
    ensures { room.new ≡ (lay_first (radials_in (length old.now)) cuts.now old.now (record { walk = first; room = room.old })).room }
{
    let mut w = first;
    for k in 0..file::radials_in(old.len()) {
        w = lay_over(w, cuts, old, k * OldRadial::SIZE, room);
    }
}
