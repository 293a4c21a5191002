// The mended volume, laid into a room: what stands before the dropped cut blocks and what stands behind them, copied in two runs, and the
// two fields on top.
ghost use Rattle.std.specs.Prelude.{◌≡◌, ◌-◌, ◌≤◌, length};
ghost use Rattle.le.specs.Le.{patch};
ghost use Rattle.mend.specs.Mend.{cut_number, last_state, behind_cut, mended, Lies};

use cut::Cut;
use generic::Generic;
use reading::Stretch;
use rules::states;
use site::Site;
use task::Task;
use walk::due::cut_place;

pub(crate) const CUT_NUMBER: usize = Generic::SIZE + Site::SIZE + Task::CUT_NUMBER;

const SCAN_TYPE: usize = Generic::SIZE + Site::SIZE + Task::SCAN_TYPE;

pub(crate) fn cut_number(file: &[u8]) -> u32
    ensures { result ≡ cut_number file.now }
{
    le::u32_at(file, CUT_NUMBER)
}

pub(crate) fn last_state(file: &[u8], s: Stretch) -> u32
    ensures { result ≡ last_state file.now s }
{
    let cut = s.cut;
    states::closing(le::u32_at(file, SCAN_TYPE), cut, cut)
}

fn behind_cut(cut: u32) -> usize
    ensures { result ≡ behind_cut cut }
{
    cut_place(cut) + Cut::SIZE
}

// How many bytes of cut blocks are dropped.
pub(crate) fn dropped_bytes(file: &[u8], s: Stretch) -> usize
    requires { Lies file.now s }
    ensures { result ≡ behind_cut (cut_number file.now) - behind_cut s.cut }
{
    behind_cut(cut_number(file)) - behind_cut(s.cut)
}

pub(crate) fn size_of(file: &[u8], s: Stretch) -> usize
    requires { Lies file.now s }
    ensures { result ≡ length (mended file.now s) }
{
    s.end - dropped_bytes(file, s)
}

pub(crate) fn lay(file: &[u8], s: Stretch, room: &mut [u8])
    requires lies { Lies file.now s }
    requires s_in_bounds { length (mended file.now s) ≤ length room.old }
    ensures { room.new ≡ patch room.old 0 (mended file.now s) }
{
    let front = behind_cut(s.cut);
    let gap = dropped_bytes(file, s);
    let back = front + gap;
    let end = s.end;
    le::put(room, 0, &file[..front]);
    le::put(room, front, &file[back..end]);
    le::put_u32(room, CUT_NUMBER, s.cut);
    le::put_u32(room, s.start - gap, last_state(file, s));
}
