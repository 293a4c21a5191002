// What the writer answers, and the order of its refusals (document 01, "Writing").
ghost use Rattle.std.specs.Prelude.{◌≡◌};
ghost use Rattle.writer.specs.declared.order.Answer.TheVariants.{Taken, Refused};
ghost use Rattle.writer.specs.Agree.{rank_of};
ghost use Rattle.writer.specs.Put.{last_tests, checked as checked_of, answer_to, next_of};

use reading::step::Step;
use walk::due::{Due, Walk, is_end};

#[derive(Clone, Copy)]
pub enum Answer {
    // The block is stored where the written bytes end.
    Taken,
    // The refusal's number and place.
    Refused(u32, usize),
}

// The answer, and the state from now on: after a refusal, the state as it was.
#[derive(Clone, Copy)]
pub struct Put {
    pub answer: Answer,
    pub walk: Walk,
}

pub(crate) fn taken(walk: Walk) -> Put
    ensures { result ≡ record { answer = Taken; walk = walk } }
{
    Put {
        answer: Answer::Taken,
        walk,
    }
}

pub(crate) fn refused(number: u32, place: usize, walk: Walk) -> Put
    ensures { result ≡ record { answer = Refused number place; walk = walk } }
{
    Put {
        answer: Answer::Refused(number, place),
        walk,
    }
}

// A number for each kind of block, and for none.
pub(crate) fn rank(due: Due) -> u8
    ensures { result ≡ rank_of due }
{
    match due {
        Due::Generic => 0,
        Due::Site => 1,
        Due::Task => 2,
        Due::Cut => 3,
        Due::Radial => 4,
        Due::Moment => 5,
        Due::Data => 6,
        Due::Nothing => 7,
    }
}

// The tests that only a block whose rules hold is put to: its length, then the room.
fn last_tests(fits: bool, at: usize, size: usize, len: usize) -> Answer
    ensures { result ≡ last_tests fits at size len }
{
    let here = le::has(len, at, size);
    if fits {
        if here {
            return Answer::Taken;
        }
        return Answer::Refused(33, at);
    }
    Answer::Refused(35, at)
}

// What the reader refuses is refused with its number and place.
fn checked(says: Step, last: Answer) -> Answer
    ensures { result ≡ checked_of says last }
{
    match says {
        Step::Took(_) => last,
        Step::Refused(n, p) => Answer::Refused(n, p),
        Step::Open(_) => last,
        Step::Complete => last,
    }
}

// The answer to a block, by its kind, what the reader says of it, whether it has its header's length, and its size; len is
// the room's.
pub(crate) fn answer_to(
    w: Walk,
    len: usize,
    kind: Due,
    says: Step,
    fits: bool,
    size: usize,
) -> Answer
    ensures { result ≡ answer_to kind says fits size w len }
{
    let at = w.at;
    let due = w.due;
    if len < at {
        return Answer::Refused(37, 0);
    }
    if is_end(due) {
        return Answer::Refused(25, at);
    }
    if rank(due) != rank(kind) {
        return Answer::Refused(34, at);
    }
    checked(says, last_tests(fits, at, size, len))
}

// The state after a block that is taken.
pub(crate) fn next_of(says: Step, w: Walk) -> Walk
    ensures { result ≡ next_of says w }
{
    match says {
        Step::Took(n) => n,
        Step::Refused(_, _) => w,
        Step::Open(_) => w,
        Step::Complete => w,
    }
}
