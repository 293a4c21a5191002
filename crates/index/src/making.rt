// An index made in one pass over the headers of the whole radials, which stand one behind the other: a header says its cut
// and where its radial ends. They come cut by cut, so the two sections grow side by side: a radial's place goes into the
// second, and once a cut has no further radial its count goes into the first. One loop puts the entries into a room, the
// other compares them with an index.
ghost use Rattle.std.specs.Prelude.{◌≡◌, ◌+◌, ◌%◌, ◌^◌, ◌≤◌, ◌<◌, leb, length};
ghost use Rattle.le.specs.Le.{part, patch, stored};
ghost use Rattle.radial.specs.Radial.{radial_size};
ghost use Rattle.reading.specs.Reading.{stretches};
ghost use Rattle.index.specs.Answer.{same};
ghost use Rattle.index.specs.Index.{old_start, new_start, most_old, start_of, index_for};
ghost use Rattle.index.specs.Making.{second_at, cuts_in, first_radial, entry_of};

use cut::Cut;
use radial::Radial;
use walk::due::cut_place;

#[derive(Clone, Copy)]
enum Entry {
    // The count of a cut that has no further radial.
    Count,
    // The place of a radial.
    Place,
    // No further entry.
    End,
}

// Which entry is due, by how many radials are to come, the header of the next, and the cut that is being counted.
#[tactic(auto, using(std::proofs::lemmas::Bool::Decides::nat_tests), unfolding(crate::specs::Making::entry_of))]
fn entry_due(left: usize, header: Radial, cut: usize, cuts: u32) -> Entry
    ensures { result ≡ entry_of left header.elevation_number cut cuts }
{
    if left == 0 {
        if cut <= cuts as usize {
            Entry::Count
        } else {
            Entry::End
        }
    } else if cut <= cuts as usize && cut < header.elevation_number as usize {
        Entry::Count
    } else {
        Entry::Place
    }
}

// Where the first radial starts: behind the last cut's block.
fn first_radial(cuts: u32) -> usize
    ensures { result ≡ first_radial cuts }
{
    cut_place(cuts) + Cut::SIZE
}

// Where the radial behind one starts that has this place and header.
fn behind(at: usize, header: Radial) -> usize
    requires { at < 2 ^ 63 }
    ensures { result ≡ at + radial_size + header.length_of_data }
{
    at + Radial::SIZE + (header.length_of_data as usize)
}

// Whether an index of so many cuts has the old form (document 02, #106).
fn old_form(cuts: u32) -> bool
    ensures { result ≡ leb cuts most_old }
{
    cuts <= 50
}

// The start of an index in either form, how long it is, and how it is put.
fn old_start(cuts: u32) -> [u8; 1]
    ensures { result ≡ old_start cuts }
{
    [(cuts % 256) as u8]
}

fn new_start(cuts: u32) -> [u8; 3]
    ensures { result ≡ new_start cuts }
{
    [0, (cuts % 256) as u8, (cuts / 256 % 256) as u8]
}

fn start_length(cuts: u32) -> usize
    ensures { result ≡ length (start_of cuts) }
{
    if old_form(cuts) { 1 } else { 3 }
}

fn put_start(room: &mut [u8], cuts: u32)
    ensures { room.new ≡ stored (length (start_of cuts)) room.old 0 (start_of cuts) }
{
    if old_form(cuts) {
        le::put(room, 0, &old_start(cuts));
    } else {
        le::put(room, 0, &new_start(cuts));
    }
}

// Whether the start stands in an index, which has five bytes at the least.
fn start_stands(index: &[u8], cuts: u32) -> bool
    requires { 3 ≤ length index.now }
    ensures { result ≡ same (start_of cuts) (part (length (start_of cuts)) index.now 0) }
{
    if old_form(cuts) {
        index.starts_with(&old_start(cuts))
    } else {
        index.starts_with(&new_start(cuts))
    }
}

// Where the second section starts.
pub(crate) fn second_at(cuts: u32) -> usize
    ensures { result ≡ second_at cuts }
{
    start_length(cuts) + 2 * (cuts as usize)
}

// A count in 2 bytes, and in 4.
fn half(count: usize) -> u16
    ensures { result ≡ count % 65536 }
{
    (count % 65536) as u16
}

fn word(count: usize) -> u32
    ensures { result ≡ count % 4294967296 }
{
    (count % 4294967296) as u32
}

pub(crate) fn put(file: &[u8], room: &mut [u8], cuts: u32, radials: usize)
    requires cuts_value { cuts ≡ cuts_in file.now }
    requires radials_value { radials ≡ length (stretches file.now) }
    requires file_in_bounds { length (index_for cuts (stretches file.now)) ≤ length room.old }
    ensures { room.new ≡ patch room.old 0 (index_for cuts (stretches file.now)) }
{
    put_start(room, cuts);
    let mut first = start_length(cuts);
    let mut second = second_at(cuts);
    le::put_u32(room, second, word(radials));
    second += 4;
    let mut cut = 1;
    let mut count = 0;
    let mut at = first_radial(cuts);
    let mut left = radials;
    loop {
        let header = Radial::read(file, at);
        match entry_due(left, header, cut, cuts) {
            Entry::Count => {
                le::put_u16(room, first, half(count));
                first += 2;
                cut += 1;
                count = 0;
            }
            Entry::Place => {
                le::put_u64(room, second, at as u64);
                second += 8;
                count += 1;
                at = behind(at, header);
                left -= 1;
            }
            Entry::End => {
                return;
            }
        }
    }
}

pub(crate) fn stands(file: &[u8], index: &[u8], cuts: u32, radials: usize) -> bool
    requires cuts_value { cuts ≡ cuts_in file.now }
    requires radials_value { radials ≡ length (stretches file.now) }
    requires index_len { length index.now ≡ length (index_for cuts (stretches file.now)) }
    ensures { result ≡ same (index_for cuts (stretches file.now)) index.now }
{
    if !start_stands(index, cuts) {
        return false;
    }
    let mut first = start_length(cuts);
    let mut second = second_at(cuts);
    if le::u32_at(index, second) != word(radials) {
        return false;
    }
    second += 4;
    let mut cut = 1;
    let mut count = 0;
    let mut at = first_radial(cuts);
    let mut left = radials;
    loop {
        let header = Radial::read(file, at);
        match entry_due(left, header, cut, cuts) {
            Entry::Count => {
                if le::u16_at(index, first) != half(count) {
                    return false;
                }
                first += 2;
                cut += 1;
                count = 0;
            }
            Entry::Place => {
                if le::u64_at(index, second) != at as u64 {
                    return false;
                }
                second += 8;
                count += 1;
                at = behind(at, header);
                left -= 1;
            }
            Entry::End => {
                return true;
            }
        }
    }
}
