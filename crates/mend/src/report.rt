// What was changed and what was left out.
ghost use Rattle.std.specs.Prelude.{◌≡◌};
ghost use Rattle.mend.specs.Mend.{field_of, report_of, Lies};

use crate::lay::{CUT_NUMBER, cut_number, dropped_bytes, last_state};
use radial::Radial;
use reading::Stretch;

// A changed field: its place in the given file and in the written one, what it held and what it holds.
#[derive(Clone, Copy)]
pub struct Change {
    pub place: usize,
    pub written: usize,
    pub old: u32,
    pub new: u32,
}

#[derive(Clone, Copy)]
pub enum Field {
    // Its contents stay, and it is not named.
    Same,
    Changed(Change),
}

#[derive(Clone, Copy)]
pub struct Report {
    // The task's cut number.
    pub cut_number: Field,
    // The state of the last radial that is kept.
    pub state: Field,
    // The dropped cuts: the number of the first, and how many they are.
    pub first_dropped: u32,
    pub dropped_cuts: u32,
    // The dropped stretch of the given file: its first byte's place, and the place behind its last.
    pub from: usize,
    pub to: usize,
}

fn field_of(place: usize, written: usize, old: u32, new: u32) -> Field
    ensures { result ≡ field_of place written old new }
{
    if old == new {
        return Field::Same;
    }
    Field::Changed(Change {
        place,
        written,
        old,
        new,
    })
}

pub(crate) fn report_of(file: &[u8], s: Stretch) -> Report
    requires { Lies file.now s }
    ensures { result ≡ report_of file.now s }
{
    let cuts = cut_number(file);
    let start = s.start;
    let written = start - dropped_bytes(file, s);
    let old = le::u32_at(file, start + Radial::STATE);
    let cut_number = field_of(CUT_NUMBER, CUT_NUMBER, cuts, s.cut);
    let state = field_of(start, written, old, last_state(file, s));
    Report {
        cut_number,
        state,
        first_dropped: s.cut + 1,
        dropped_cuts: cuts - s.cut,
        from: s.end,
        to: file.len(),
    }
}
