// Old codes and ours (document 02, #102).
ghost use Rattle.std.specs.Prelude.{◌≡◌, cond, ◌+◌, ◌*◌, ◌≤◌, leb, length};
ghost use Rattle.le.specs.Le.{stored, patch, run, part};
ghost use Rattle.old.specs.Codes.{new_code, new_bytes, coding_of};

use gates::Coding;

// The three moments of an old radial.
#[derive(Clone, Copy)]
pub enum Quantity {
    Reflectivity,
    Velocity,
    Width,
}

// How the codes that we write of a moment are to be read.
#[tactic(auto, using(std::proofs::lemmas::Bool::Decides::nat_tests), unfolding(crate::specs::Codes::coding_of))]
pub fn coding(q: Quantity, resolution: u16) -> Coding
    ensures { result ≡ coding_of q resolution }
{
    match q {
        Quantity::Reflectivity => Coding {
            data_type: 2,
            scale: 2,
            offset: 69,
        },
        Quantity::Velocity => Coding {
            data_type: 3,
            scale: if resolution == 4 { 1 } else { 2 },
            offset: 132,
        },
        Quantity::Width => Coding {
            data_type: 4,
            scale: 2,
            offset: 132,
        },
    }
}

// Our code for an old one: past the special codes, of which the old ones are 0 and 1.
#[tactic(auto, using(std::proofs::lemmas::Bool::Decides::nat_tests), unfolding(crate::specs::Codes::new_code))]
pub fn code(v: u8) -> u16
    ensures { result ≡ new_code v }
{
    if v < 2 { v as u16 } else { v as u16 + 3 }
}

// Our codes for a run of old ones into a room at a place, two bytes each, where they all fit; no other byte changes.
pub fn put_codes(room: &mut [u8], at: usize, codes: &[u8])
    ensures { room.new
        ≡ stored (2 * length codes.now) room.old at (run new_bytes codes.now) }
{
    if le::has(room.len(), at, 2 * codes.len()) {
        put_codes_here(room, at, codes);
    }
}

fn put_codes_here(room: &mut [u8], at: usize, codes: &[u8])
    requires { at + 2 * length codes.now ≤ length room.old }
    ensures { room.new ≡ patch room.old at (run new_bytes codes.now) }
{
    for (i, v) in codes.iter().enumerate() {
        let [low, high] = code(*v).to_le_bytes();
        let to = at + 2 * i;
        room[to] = low;
        room[to + 1] = high;
    }
}

// The same of n codes of the old file from a place on, where they are all there.
pub fn put_moment(room: &mut [u8], at: usize, old: &[u8], from: usize, n: u16)
    ensures { room.new
        ≡ cond (leb (from + n) (length old.now))
        (stored (2 * n) room.old at (run new_bytes (part n old.now from)))
        room.old }
{
    if le::has(old.len(), from, n as usize) {
        let end = from + n as usize;
        put_codes(room, at, &old[from..end]);
    }
}
