// The writer once state and room agree: it takes its state as it is given, so nothing but this crate calls it. A block taken
// keeps that agreement (proofs/Agreeing).
ghost use Rattle.writer.specs.Block.{generic, site, task, cut, radial, moment, «data»};
ghost use Rattle.writer.specs.Put.{put_on, Puts};

use crate::order::{Answer, Put};
use crate::settle;
use cut::Cut;
use generic::Generic;
use moment::Moment;
use radial::Radial;
use site::Site;
use task::Task;
use walk::due::{Walk, cut_place};

pub(crate) fn generic_on(w: Walk, room: &mut [u8], r: Generic) -> Put
    ensures { Puts (put_on (generic r) w room.old) result room.new }
{
    let at = w.at;
    let p = settle::generic(w, room, r);
    let answer = p.answer;
    match answer {
        Answer::Taken => {
            r.write(room, at);
            p
        }
        Answer::Refused(_, _) => p,
    }
}

pub(crate) fn site_on(w: Walk, room: &mut [u8], r: Site) -> Put
    ensures { Puts (put_on (site r) w room.old) result room.new }
{
    let at = w.at;
    let p = settle::site(w, room, r);
    let answer = p.answer;
    match answer {
        Answer::Taken => {
            r.write(room, at);
            p
        }
        Answer::Refused(_, _) => p,
    }
}

pub(crate) fn task_on(w: Walk, room: &mut [u8], r: Task) -> Put
    ensures { Puts (put_on (task r) w room.old) result room.new }
{
    let at = w.at;
    let p = settle::task(w, room, r);
    let answer = p.answer;
    match answer {
        Answer::Taken => {
            r.write(room, at);
            p
        }
        Answer::Refused(_, _) => p,
    }
}

pub(crate) fn cut_on(w: Walk, room: &mut [u8], r: Cut) -> Put
    ensures { Puts (put_on (cut r) w room.old) result room.new }
{
    let at = w.at;
    let p = settle::cut(w, room, r);
    let answer = p.answer;
    match answer {
        Answer::Taken => {
            r.write(room, at);
            p
        }
        Answer::Refused(_, _) => p,
    }
}

pub(crate) fn radial_on(w: Walk, room: &mut [u8], r: Radial) -> Put
    ensures { Puts (put_on (radial r) w room.old) result room.new }
{
    let at = w.at;
    let place = cut_place(w.count.cut);
    let mask = le::u64_at(room, place + Cut::MOMENTS_MASK);
    let sizes = le::u64_at(room, place + Cut::SIZE_MASK);
    let p = settle::radial(w, room, r, mask, sizes);
    let answer = p.answer;
    match answer {
        Answer::Taken => {
            r.write(room, at);
            p
        }
        Answer::Refused(_, _) => p,
    }
}

pub(crate) fn moment_on(w: Walk, room: &mut [u8], r: Moment) -> Put
    ensures { Puts (put_on (moment r) w room.old) result room.new }
{
    let at = w.at;
    let p = settle::moment(w, room, r);
    let answer = p.answer;
    match answer {
        Answer::Taken => {
            r.write(room, at);
            p
        }
        Answer::Refused(_, _) => p,
    }
}

pub(crate) fn data_on(w: Walk, room: &mut [u8], bytes: &[u8]) -> Put
    ensures { Puts (put_on («data» bytes.now) w room.old) result room.new }
{
    let at = w.at;
    let p = settle::data(w, room, bytes.len());
    let answer = p.answer;
    match answer {
        Answer::Taken => {
            le::put(room, at, bytes);
            p
        }
        Answer::Refused(_, _) => p,
    }
}
