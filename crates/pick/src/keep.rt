// The wanted moments of a radial, in its own stretch of the file.
ghost use Rattle.std.specs.Prelude.{◌≡◌, ◌-◌, take, drop};
ghost use Rattle.rules.specs.Masks.{bit};
ghost use Rattle.moment.specs.Moment.{moment_at};
ghost use Rattle.pick.specs.Keep.{kept_of};

use moment::Moment;
use reading::Stretch;
use rules::masks;

// How many they are, and how many bytes they have, headers and data.
#[derive(Clone, Copy)]
pub(crate) struct Kept {
    pub moments: usize,
    pub bytes: usize,
}

// Whether the type of the moment at a place is wanted.
pub(crate) fn wants(b: &[u8], at: usize, wanted: u64) -> bool
    ensures { result ≡ bit wanted (moment_at b.now at).data_type }
{
    masks::bit(wanted, le::u32_at(b, at + Moment::DATA_TYPE))
}

// The header and the data of the moment at a place, by where they end.
pub(crate) fn moment(b: &[u8], at: usize, end: usize) -> &[u8]
    ensures { result.now ≡ take (end - at) (drop at b.now) }
{
    reading::own(
        b,
        Stretch {
            start: at,
            end,
            cut: 0,
        },
    )
}

pub(crate) fn kept_of(b: &[u8], wanted: u64) -> Kept
    ensures { result ≡ kept_of wanted b.now }
{
    let mut p = moments::first(b);
    let mut count = 0;
    let mut bytes = 0;
    loop {
        match moments::next(b, p) {
            Some((at, q)) => {
                if wants(b, at, wanted) {
                    count += 1;
                    bytes += moment(b, at, q.at).len();
                }
                p = q;
            }
            None => {
                return Kept {
                    moments: count,
                    bytes,
                };
            }
        }
    }
}
