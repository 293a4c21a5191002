// Why a gate's answer is what it is, and why a file is refused (document 02, #104): the fields that are cited, and what stands there.
#![tactic(auto)]

ghost use Rattle.std.specs.Prelude.{◌≡◌};
ghost use Rattle.citing.specs.Fields.{field_at};

pub mod answers;
pub mod refusals;

// A field: its place in the file, its size in bytes, and the number without sign that stands there.
#[derive(Clone, Copy)]
pub struct Field {
    pub place: usize,
    pub size: usize,
    pub found: u32,
}

pub(crate) fn four(file: &[u8], place: usize) -> Field
    ensures { result ≡ field_at file.now place 4 }
{
    Field {
        place,
        size: 4,
        found: le::u32_at(file, place),
    }
}

pub(crate) fn two(file: &[u8], place: usize) -> Field
    ensures { result ≡ field_at file.now place 2 }
{
    Field {
        place,
        size: 2,
        found: le::u16_at(file, place) as u32,
    }
}

pub(crate) fn one(file: &[u8], place: usize) -> Field
    ensures { result ≡ field_at file.now place 1 }
{
    Field {
        place,
        size: 1,
        found: if place < file.len() {
            file[place] as u32
        } else {
            0
        },
    }
}
