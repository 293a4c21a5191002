// The moments of one radial, read from that radial's own stretch of the file (document 01, "What reading tells"): the
// radial header, then, as often as it says, a moment header and its data. A moment is known by its header's place.
#![tactic(auto)]

ghost use Rattle.std.specs.Prelude.{◌≡◌, ◌+◌, ◌≤◌, length};
ghost use Rattle.moment.specs.Moment.{moment_at, moment_size};
ghost use Rattle.moments.specs.Moments.{first_of, ahead_of, find_in, moments_of, data_at};

use moment::Moment;
use radial::Radial;

// The moments still to come, and where the header of the next one is sought.
#[derive(Clone, Copy)]
pub struct Place {
    pub todo: usize,
    pub at: usize,
}

// The place from which all moments of the radial are to come.
pub fn first(b: &[u8]) -> Place
    ensures { result ≡ first_of b.now }
{
    Place {
        todo: le::u32_at(b, Radial::MOMENT_NUMBER) as usize,
        at: Radial::SIZE,
    }
}

// One field of a header, so that a search does not decode them all.
fn type_at(b: &[u8], at: usize) -> u32
    requires { at + moment_size ≤ length b.now }
    ensures { result ≡ (moment_at b.now at).data_type }
{
    le::u32_at(b, at + Moment::DATA_TYPE)
}

fn length_at(b: &[u8], at: usize) -> u32
    requires { at + moment_size ≤ length b.now }
    ensures { result ≡ (moment_at b.now at).length }
{
    le::u32_at(b, at + Moment::LENGTH)
}

// The next moment from a place on; total on any place, also on one that no step gave.
pub fn next(b: &[u8], p: Place) -> Option<(usize, Place)>
    ensures { result ≡ ahead_of b.now p }
{
    let at = p.at;
    let todo = p.todo;
    if todo == 0 {
        return None;
    }
    if le::has(b.len(), at, Moment::SIZE) {
        let n = length_at(b, at) as usize;
        return Some((
            at,
            Place {
                todo: todo - 1,
                at: at + Moment::SIZE + n,
            },
        ));
    }
    None
}

// The place of the header of the first moment of type t.
pub fn find(b: &[u8], t: u32) -> Option<usize>
    ensures { result ≡ find_in b.now t (moments_of b.now) }
{
    let mut p = first(b);
    loop {
        match next(b, p) {
            Some((at, q)) => {
                if type_at(b, at) == t {
                    return Some(at);
                }
                p = q;
            }
            None => {
                return None;
            }
        }
    }
}

// The part of b that holds the data of the moment whose header stands at a place: what b has of it.
pub fn data(b: &[u8], at: usize) -> &[u8]
    ensures { result.now ≡ data_at b.now at }
{
    let end = b.len();
    if le::has(end, at, Moment::SIZE) {
        let from = at + Moment::SIZE;
        let n = length_at(b, at) as usize;
        if n <= end - from {
            let to = from + n;
            return &b[from..to];
        }
        return &b[from..];
    }
    &b[end..]
}
