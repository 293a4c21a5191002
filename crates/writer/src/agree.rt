// Whether a state and a room agree: whether reading what the state counts as written stops at that state.
ghost use Rattle.std.specs.Prelude.{◌≡◌, ◌&&◌};
ghost use Rattle.writer.specs.Agree.{same_plan, same_count, same_present, same_rest, same_walk, agrees as agrees_of};

use crate::order::rank;
use crate::state_of;
use walk::due::{Count, Plan, Present, Rest, Walk};

fn both(a: bool, b: bool) -> bool
    ensures { result ≡ a && b }
{
    if a { b } else { false }
}

fn same_plan(a: Plan, b: Plan) -> bool
    ensures { result ≡ same_plan a b }
{
    both(a.scan_type == b.scan_type, a.cuts == b.cuts)
}

fn same_count(a: Count, b: Count) -> bool
    ensures { result ≡ same_count a b }
{
    both(
        a.cut == b.cut,
        both(a.whole == b.whole, a.in_cut == b.in_cut),
    )
}

fn same_present(a: Present, b: Present) -> bool
    ensures { result ≡ same_present a b }
{
    let masks = both(a.mask == b.mask, a.sizes == b.sizes);
    let kind = both(a.state == b.state, a.sequence == b.sequence);
    both(a.start == b.start, both(kind, masks))
}

fn same_rest(a: Rest, b: Rest) -> bool
    ensures { result ≡ same_rest a b }
{
    let data = both(a.seen == b.seen, a.length == b.length);
    both(a.todo == b.todo, both(a.left == b.left, data))
}

fn same_walk(a: Walk, b: Walk) -> bool
    ensures { result ≡ same_walk a b }
{
    let due = a.due;
    let other = b.due;
    let place = both(rank(due) == rank(other), a.at == b.at);
    let settled = both(same_plan(a.plan, b.plan), same_count(a.count, b.count));
    let radial = both(
        same_present(a.present, b.present),
        same_rest(a.rest, b.rest),
    );
    both(place, both(settled, radial))
}

pub(crate) fn agrees(w: Walk, room: &[u8]) -> bool
    ensures { result ≡ agrees_of w room.now }
{
    let at = w.at;
    if room.len() < at {
        return false;
    }
    let read = state_of(&room[..at]);
    same_walk(read, w)
}
