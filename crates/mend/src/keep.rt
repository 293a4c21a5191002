// The last radial that is kept: the newest whole one, or the one before it where the newest is alone in its cut.
ghost use Rattle.std.specs.Prelude.{◌≡◌};
ghost use Rattle.mend.specs.Kept.{cut_of, kept_of, last_kept};

use reading::{Onward, Stretch};
use walk::due::Walk;

fn cut_of(radial: Option<Stretch>) -> u32
    ensures { result ≡ cut_of radial }
{
    match radial {
        Some(s) => s.cut,
        None => 0,
    }
}

fn kept_of(before: Option<Stretch>, newest: Option<Stretch>) -> Option<Stretch>
    ensures { result ≡ kept_of before newest }
{
    let Some(s) = newest else {
        return before;
    };
    if s.cut == cut_of(before) {
        return newest;
    }
    before
}

pub(crate) fn last_kept(file: &[u8]) -> Option<Stretch>
    ensures { result ≡ last_kept file.now }
{
    let mut w = Walk::begin();
    let mut before = None;
    let mut newest = None;
    loop {
        match reading::advance(file, w) {
            Onward::Whole(s, n) => {
                before = newest;
                newest = Some(s);
                w = n;
            }
            Onward::Stopped(_) => {
                return kept_of(before, newest);
            }
        }
    }
}
