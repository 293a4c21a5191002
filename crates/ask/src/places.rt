// Where an asked radial and moment stand.
ghost use Rattle.std.specs.Prelude.{◌≡◌};
ghost use Rattle.moments.specs.Moments.{moments_of, find_in};
ghost use Rattle.ask.specs.Places.{where_is, in_stretch, found_of};

use reading::Stretch;
use refusal::Refusal;

#[derive(Clone, Copy)]
pub enum Where {
    // The radial's stretch, and the place of the moment's header in it.
    At(Stretch, usize),
    NoRadial,
    NoMoment,
}

// The moment of a type in a radial's own stretch.
pub(crate) fn in_stretch(b: &[u8], s: Stretch, t: u32) -> Where
    ensures { result ≡ in_stretch s (find_in b.now t (moments_of b.now)) }
{
    match moments::find(b, t) {
        Some(p) => Where::At(s, p),
        None => Where::NoMoment,
    }
}

// The moment of a type in the whole radial with a sequence number, from 1.
pub fn find(file: &[u8], sequence: usize, t: u32) -> Where
    ensures { result ≡ where_is file.now sequence t }
{
    match reading::find(file, sequence) {
        Some(s) => in_stretch(reading::own(file, s), s, t),
        None => Where::NoRadial,
    }
}

// The same as an answer: the radial's stretch and the moment's place in it, or which of them is not there.
pub(crate) fn found(file: &[u8], sequence: usize, t: u32) -> Result<(Stretch, usize), Refusal>
    ensures { result ≡ found_of (where_is file.now sequence t) }
{
    match find(file, sequence, t) {
        Where::At(s, p) => Ok((s, p)),
        Where::NoRadial => Err(Refusal::NoRadial),
        Where::NoMoment => Err(Refusal::NoMoment),
    }
}
