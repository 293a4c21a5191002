// What the writer will answer to each block of an import, with nothing stored.
ghost use Rattle.std.specs.Prelude.{◌≡◌, ◌/◌, true, length};
ghost use Rattle.cut.specs.Cut.{cut_size};
ghost use Rattle.radial.specs.Radial.{radial_size};
ghost use Rattle.walk.specs.declared.due.Due.TheVariants as due;
ghost use Rattle.writer.specs.declared.order.Answer.TheVariants.{Refused};
ghost use Rattle.writer.specs.Block.{radial, says_of};
ghost use Rattle.writer.specs.Put.{settled_by};
ghost use Rattle.old.specs.Shelf.{radials_in};
ghost use Rattle.shelf.specs.Settled.{front, Goes, settle_cuts, settle_rest, settle_ours, counted as counted_of, radial_next, settle_moment, settle_moments, settle_over, settle_first};

use cut::Cut;
use generic::Generic;
use moment::Moment;
use old::codes::Quantity;
use old::record::OldRadial;
use old::{file, headers};
use radial::Radial;
use site::Site;
use task::Task;
use walk::due::{Walk, cut_place};
use writer::order::{Answer, Put};
use writer::settle;

pub(crate) fn refused(number: u32, place: usize, walk: Walk) -> Put
    ensures { result ≡ record { answer = Refused number place; walk = walk } }
{
    Put {
        answer: Answer::Refused(number, place),
        walk,
    }
}

// A block, where nothing is refused yet: by how it is settled behind a walk.
fn next<F: FnOnce(Walk) -> Put + Drop>(p: Put, settle: F) -> Put
    requires { F.pre settle p.walk }
    ensures { Goes p.answer (F.post settle p.walk) p result }
{
    let answer = p.answer;
    match answer {
        Answer::Taken => settle(p.walk),
        Answer::Refused(_, _) => p,
    }
}

// ---- our records

fn settle_cuts(p: Put, cuts: &[u8], room: &[u8]) -> Put
    ensures { result ≡ settle_cuts (length cuts.now / cut_size) cuts.now (length room.now) p }
{
    let mut q = p;
    for k in 0..cuts.len() / Cut::SIZE {
        let r = Cut::read(cuts, k * Cut::SIZE);
        q = next(q, |w| settle::cut(w, room, r));
    }
    q
}

// Bytes behind the last whole cut record are offered as data, which is never due there.
fn settle_rest(p: Put, room: &[u8], size: usize) -> Put
    ensures { result ≡ settle_rest (length room.now) size p }
{
    if size == 0 {
        p
    } else {
        next(p, |w| settle::data(w, room, size))
    }
}

pub(crate) fn settle_ours(g: Generic, s: Site, t: Task, cuts: &[u8], room: &[u8]) -> Put
    ensures { result ≡ settle_ours g s t cuts.now (length room.now) }
{
    let p = settle::generic(Walk::begin(), room, g);
    let p = next(p, |w| settle::site(w, room, s));
    let p = next(p, |w| settle::task(w, room, t));
    let p = settle_cuts(p, cuts, room);
    settle_rest(p, room, cuts.len() % Cut::SIZE)
}

// ---- an old radial

fn counted(n: usize) -> u32
    ensures { result ≡ counted_of n }
{
    (n.wrapping_add(1) % 0x1_0000_0000) as u32
}

// Its header, counted anew.
pub(crate) fn radial_next(o: OldRadial, w: Walk) -> Radial
    ensures { result ≡ radial_next o w }
{
    headers::radial_from(o, counted(w.count.whole), counted(w.count.in_cut))
}

fn settle_radial(w: Walk, cuts: &[u8], room: &[u8], r: Radial) -> Put
    ensures { result ≡ settled_by due.Radial (says_of (radial r) (front cuts.now) w) true radial_size w (length room.now) }
{
    let place = cut_place(w.count.cut) - cut_place(1);
    let mask = le::u64_at(cuts, place + Cut::MOMENTS_MASK);
    let sizes = le::u64_at(cuts, place + Cut::SIZE_MASK);
    settle::radial(w, room, r, mask, sizes)
}

fn settle_moment(p: Put, room: &[u8], q: Quantity, o: OldRadial) -> Put
    ensures { result ≡ settle_moment (length room.now) q o p }
{
    let n = headers::gates(q, o);
    if n == 0 {
        return p;
    }
    let m = headers::moment_from(q, o.resolution, n);
    let size = 2 * (n as usize);
    let p = next(p, |w| settle::moment(w, room, m));
    next(p, |w| settle::data(w, room, size))
}

fn settle_moments(p: Put, room: &[u8], o: OldRadial) -> Put
    ensures { result ≡ settle_moments (length room.now) o p }
{
    let p = settle_moment(p, room, Quantity::Reflectivity, o);
    let p = settle_moment(p, room, Quantity::Velocity, o);
    settle_moment(p, room, Quantity::Width, o)
}

// Its own rules first; then the writer's, block by block.
pub(crate) fn settle_over(p: Put, cuts: &[u8], room: &[u8], o: OldRadial, at: usize) -> Put
    ensures { result ≡ settle_over cuts.now (length room.now) o at p }
{
    let answer = p.answer;
    match answer {
        Answer::Taken => {}
        Answer::Refused(_, _) => {
            return p;
        }
    }
    let w = p.walk;
    match o.check() {
        Ok(()) => {
            let q = settle_radial(w, cuts, room, radial_next(o, w));
            settle_moments(q, room, o)
        }
        Err(c) => refused(c.number, at, w),
    }
}

pub(crate) fn settle_all(p: Put, cuts: &[u8], old: &[u8], room: &[u8]) -> Put
    ensures { result ≡ settle_first (radials_in (length old.now)) cuts.now old.now (length room.now) p }
{
    let mut q = p;
    for k in 0..file::radials_in(old.len()) {
        let at = k * OldRadial::SIZE;
        q = settle_over(q, cuts, room, OldRadial::read(old, at), at);
    }
    q
}
