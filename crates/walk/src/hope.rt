// Whether hope is left behind a radial header, and behind a moment header (document 02, #110).
ghost use Rattle.std.specs.Prelude.{◌≡◌};
ghost use Rattle.walk.specs.Hope.{moments_hope, radials_hope, radial_hope};

use crate::after::closes_cut;
use crate::due::Walk;

// The moments that the present radial still has to have can come.
pub fn moments(w: Walk) -> bool
    ensures { result ≡ moments_hope w }
{
    coming::moments_can(
        w.present.mask,
        w.present.sizes,
        w.rest.seen,
        w.rest.todo,
        w.rest.left,
    )
}

// The radials that the volume still has to have behind the present one can come.
fn radials(w: Walk) -> bool
    ensures { result ≡ radials_hope w }
{
    coming::radials_can_after(
        w.plan.cuts,
        w.count.cut,
        closes_cut(w),
        w.count.in_cut,
        w.present.sequence,
    )
}

// Both.
pub fn radial(w: Walk) -> bool
    ensures { result ≡ radial_hope w }
{
    if moments(w) { radials(w) } else { false }
}
