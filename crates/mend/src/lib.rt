// A broken volume closed (document 02, #107): from any file, the longest complete volume that is made of its leading whole radials.
// All or nothing: one pass over the radials finds the last that is kept, which decides everything; then two runs of bytes are
// copied, and two fields changed.
#![tactic(auto)]

ghost use Rattle.mend.specs.Mend.{Mends};

mod keep;
mod lay;
pub mod report;

use crate::keep::last_kept;
use crate::lay::{lay, size_of};
use crate::report::{Report, report_of};
use reading::Stretch;
use refusal::Refusal;

// The length of the volume at the front of the room, and what was changed and left out.
pub fn mend(file: &[u8], room: &mut [u8]) -> Result<(usize, Report), Refusal>
    ensures { Mends file.now room.old result room.new }
{
    let s = last_kept(file).ok_or(Refusal::NothingWhole)?;
    let size = size_of(file, s);
    if room.len() < size {
        return Err(Refusal::NoRoom);
    }
    lay(file, s, room);
    Ok((size, report_of(file, s)))
}
