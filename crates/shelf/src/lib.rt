// The import of an old shelf (document 02, #102): our records and the radials of an old file, written as a volume through our writer. All
// or nothing: everything is settled in a first pass, which looks at the headers alone, and the second lays the bytes down.
#![tactic(auto)]

ghost use Rattle.writer.specs.Put.{Puts};
ghost use Rattle.shelf.specs.Import.{import_of};

mod lay;
mod settle;

use crate::lay::{lay_all, lay_ours};
use crate::settle::{refused, settle_all, settle_ours};
use generic::Generic;
use old::file;
use site::Site;
use task::Task;
use walk::due::Walk;
use writer::order::{Answer, Put};

// The cut records are lent as bytes, 256 for each. Taken, the first bytes of the room, as many as the state counts, are the volume,
// complete or open, and the state is the writer's from then on. Refused, the room is as it was, and the state is a fresh one.
pub fn import(g: Generic, s: Site, t: Task, cuts: &[u8], old: &[u8], room: &mut [u8]) -> Put
    ensures { Puts (import_of g s t cuts.now old.now room.old) result room.new }
{
    if !file::shelf_ok(old.len()) {
        return refused(50, 0, Walk::begin());
    }
    let first = settle_ours(g, s, t, cuts, room);
    let last = settle_all(first, cuts, old, room);
    let answer = last.answer;
    match answer {
        Answer::Taken => {
            lay_ours(g, s, t, cuts, room);
            lay_all(first.walk, cuts, old, room);
            last
        }
        Answer::Refused(n, p) => refused(n, p, Walk::begin()),
    }
}
