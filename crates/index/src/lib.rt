// The house index of a file (document 01): written into a lent room, told right or wrong for a file, and read.
#![tactic(auto)]

ghost use Rattle.std.specs.Prelude.{◌≡◌};
ghost use Rattle.index.specs.Answer.{Writes, right_for};
ghost use Rattle.index.specs.Making.{layout_for, layout_of};

use generic::Generic;
use reading::Verdict;
use refusal::Refusal;
use site::Site;
use task::Task;

mod making;
pub mod said;

// What there is to put into a room, or to find in an index.
#[derive(Clone, Copy)]
enum Layout {
    Fits {
        cuts: u32,
        radials: usize,
        size: usize,
    },
    // There are fewer bytes than the index has.
    Short,
    // The file is not complete.
    Unfinished,
}

// What the places take is divided and not multiplied, so that no product is too large.
#[tactic(auto, using(std::proofs::lemmas::Bool::Decides::nat_tests), unfolding(crate::specs::Making::layout_for))]
fn layout_for(cuts: u32, radials: usize, len: usize) -> Layout
    ensures { result ≡ layout_for cuts radials len }
{
    let places = making::second_at(cuts) + 4;
    if len < places || (len - places) / 8 < radials {
        Layout::Short
    } else {
        Layout::Fits {
            cuts,
            radials,
            size: places + 8 * radials,
        }
    }
}

fn layout_of(file: &[u8], len: usize) -> Layout
    ensures { result ≡ layout_of file.now len }
{
    let told = reading::read(file);
    let verdict = told.verdict;
    match verdict {
        Verdict::Complete => {
            let cuts = le::u32_at(file, Generic::SIZE + Site::SIZE + Task::CUT_NUMBER);
            layout_for(cuts, told.radials, len)
        }
        Verdict::Open(_) => Layout::Unfinished,
        Verdict::Refused(_, _) => Layout::Unfinished,
    }
}

// Writes the index of a complete file at the front of a room that takes it, and says how long it is.
pub fn write(file: &[u8], room: &mut [u8]) -> Result<usize, Refusal>
    ensures { Writes file.now room.old result room.new }
{
    match layout_of(file, room.len()) {
        Layout::Fits {
            cuts,
            radials,
            size,
        } => {
            making::put(file, room, cuts, radials);
            Ok(size)
        }
        Layout::Short => Err(Refusal::NoRoom),
        Layout::Unfinished => Err(Refusal::NotComplete),
    }
}

// Whether the file is complete and the bytes are its index.
pub fn right(file: &[u8], index: &[u8]) -> bool
    ensures { result ≡ right_for file.now index.now }
{
    match layout_of(file, index.len()) {
        Layout::Fits {
            cuts,
            radials,
            size,
        } => index.len() <= size && making::stands(file, index, cuts, radials),
        Layout::Short => false,
        Layout::Unfinished => false,
    }
}
