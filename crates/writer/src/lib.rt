// The writer (document 01, "Writing"): one block at a time, onto what a room holds already. Its state is the walk that
// reading what is written stops at. Each function below believes neither state nor room: it reads what is written first.
// A state that was lost is found again from the written bytes, by `state_of`.
#![tactic(auto)]

ghost use Rattle.std.specs.Prelude.{◌≡◌};
ghost use Rattle.reading.specs.Reading.{stop};
ghost use Rattle.writer.specs.Block.{generic, site, task, cut, radial, moment, «data»};
ghost use Rattle.writer.specs.Put.{put, Puts};

mod agree;
mod on;
pub mod order;
pub mod settle;

use crate::agree::agrees;
use crate::on::{cut_on, data_on, generic_on, moment_on, radial_on, site_on, task_on};
use crate::order::{Put, refused};
use cut::Cut;
use generic::Generic;
use moment::Moment;
use radial::Radial;
use reading::{Onward, advance};
use site::Site;
use task::Task;
use walk::due::Walk;

// The state that goes with what is written: the walk at which reading it stops.
pub fn state_of(written: &[u8]) -> Walk
    ensures { result ≡ stop written.now }
{
    let mut w = Walk::begin();
    loop {
        match advance(written, w) {
            Onward::Whole(_, n) => {
                w = n;
            }
            Onward::Stopped(v) => {
                return v;
            }
        }
    }
}

pub fn put_generic(w: Walk, room: &mut [u8], r: Generic) -> Put
    ensures { Puts (put (generic r) w room.old) result room.new }
{
    if agrees(w, room) {
        return generic_on(w, room, r);
    }
    refused(37, 0, w)
}

pub fn put_site(w: Walk, room: &mut [u8], r: Site) -> Put
    ensures { Puts (put (site r) w room.old) result room.new }
{
    if agrees(w, room) {
        return site_on(w, room, r);
    }
    refused(37, 0, w)
}

pub fn put_task(w: Walk, room: &mut [u8], r: Task) -> Put
    ensures { Puts (put (task r) w room.old) result room.new }
{
    if agrees(w, room) {
        return task_on(w, room, r);
    }
    refused(37, 0, w)
}

pub fn put_cut(w: Walk, room: &mut [u8], r: Cut) -> Put
    ensures { Puts (put (cut r) w room.old) result room.new }
{
    if agrees(w, room) {
        return cut_on(w, room, r);
    }
    refused(37, 0, w)
}

pub fn put_radial(w: Walk, room: &mut [u8], r: Radial) -> Put
    ensures { Puts (put (radial r) w room.old) result room.new }
{
    if agrees(w, room) {
        return radial_on(w, room, r);
    }
    refused(37, 0, w)
}

pub fn put_moment(w: Walk, room: &mut [u8], r: Moment) -> Put
    ensures { Puts (put (moment r) w room.old) result room.new }
{
    if agrees(w, room) {
        return moment_on(w, room, r);
    }
    refused(37, 0, w)
}

pub fn put_data(w: Walk, room: &mut [u8], bytes: &[u8]) -> Put
    ensures { Puts (put («data» bytes.now) w room.old) result room.new }
{
    if agrees(w, room) {
        return data_on(w, room, bytes);
    }
    refused(37, 0, w)
}
