// What is answered of a radial, a moment, a gate and a row.
ghost use Rattle.std.specs.Prelude.{◌≡◌};
ghost use Rattle.ask.specs.Places.{where_is, moment_in};
ghost use Rattle.ask.specs.Answers.{radial_of_file, moment_told, data_told, coding_of, told_gate_answer, gate_in, gate_told, RowTold};

use crate::places;
use crate::places::Where;
use gates::{Coding, Told};
use moment::Moment;
use radial::Radial;
use reading::Stretch;
use refusal::Refusal;

// Not a Result, here and below: of a refusal the place and the header are promised too, all zeros (`radial_told`, `moment_told`).
// 0, or the refusal's number; the radial's place, and its header.
#[derive(Clone, Copy)]
pub struct RadialAnswer {
    pub number: u32,
    pub place: usize,
    pub header: Radial,
}

// 0, or the refusal's number; the moment's header.
#[derive(Clone, Copy)]
pub struct MomentAnswer {
    pub number: u32,
    pub header: Moment,
}

// The whole radial with a sequence number, from 1.
pub fn radial(file: &[u8], sequence: usize) -> RadialAnswer
    ensures { result ≡ radial_of_file file.now sequence }
{
    match reading::find(file, sequence) {
        Some(s) => RadialAnswer {
            number: 0,
            place: s.start,
            header: Radial::read(file, s.start),
        },
        None => RadialAnswer {
            number: 30,
            place: 0,
            header: Radial::read(&file[..0], 0),
        },
    }
}

// The header of the moment of a type.
pub fn moment(file: &[u8], sequence: usize, t: u32) -> MomentAnswer
    ensures { result ≡ moment_told file.now (where_is file.now sequence t) }
{
    match places::find(file, sequence, t) {
        Where::At(s, p) => MomentAnswer {
            number: 0,
            header: Moment::read(reading::own(file, s), p),
        },
        Where::NoRadial => MomentAnswer {
            number: 30,
            header: Moment::read(&file[..0], 0),
        },
        Where::NoMoment => MomentAnswer {
            number: 31,
            header: Moment::read(&file[..0], 0),
        },
    }
}

// The part of the file that holds the data of the moment of a type; empty where it is refused.
pub fn moment_data(file: &[u8], sequence: usize, t: u32) -> &[u8]
    ensures { result.now ≡ data_told file.now (where_is file.now sequence t) }
{
    match places::find(file, sequence, t) {
        Where::At(s, p) => moments::data(reading::own(file, s), p),
        Where::NoRadial => &file[..0],
        Where::NoMoment => &file[..0],
    }
}

// What a header says of its codes.
pub fn coding(h: Moment) -> Coding
    ensures { result ≡ coding_of h }
{
    Coding {
        data_type: h.data_type,
        scale: (h.scale % 65536) as u16,
        offset: (h.offset % 65536) as u16,
    }
}

// A gate of a moment's data.
pub(crate) fn gate_in(h: Moment, bytes: &[u8], i: usize) -> Result<Told, Refusal>
    ensures { told_gate_answer result ≡ gate_in h bytes.now i }
{
    if i < gates::gates_in(bytes, h.bin_length) {
        let code = gates::code_at(bytes, h.bin_length, i);
        Ok(gates::tell(coding(h), code))
    } else {
        Err(Refusal::NoGate)
    }
}

// A gate of the moment of a type in a radial that was found, from 0. A list of questions is its one caller, so that it is inlined
// there, without the quotient that a list does not show; `gate` goes the way of the other questions.
pub fn gate_at(file: &[u8], s: Stretch, t: u32, i: usize) -> Result<Told, Refusal>
    ensures { told_gate_answer result ≡ gate_told file.now (moment_in file.now t s) i }
{
    let b = reading::own(file, s);
    match moments::find(b, t) {
        Some(p) => gate_in(Moment::read(b, p), moments::data(b, p), i),
        None => Err(Refusal::NoMoment),
    }
}

// A gate of the moment of a type, from 0.
pub fn gate(file: &[u8], sequence: usize, t: u32, i: usize) -> Result<Told, Refusal>
    ensures { told_gate_answer result ≡ gate_told file.now (where_is file.now sequence t) i }
{
    let (s, p) = places::found(file, sequence, t)?;
    let b = reading::own(file, s);
    gate_in(Moment::read(b, p), moments::data(b, p), i)
}

// The kinds and hundredths of all gates of the moment of a type.
pub fn row(
    file: &[u8],
    sequence: usize,
    t: u32,
    kinds: &mut [u8],
    hundredths: &mut [i32],
) -> Result<usize, Refusal>
    ensures { RowTold file.now (where_is file.now sequence t) kinds.old hundredths.old result kinds.new hundredths.new }
{
    let (s, p) = places::found(file, sequence, t)?;
    let b = reading::own(file, s);
    let h = Moment::read(b, p);
    gates::row(
        moments::data(b, p),
        h.bin_length,
        coding(h),
        kinds,
        hundredths,
    )
}
