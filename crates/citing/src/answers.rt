// Why a gate's answer is what it is: where its type, scale, offset, bin length and code stand, and what stands there.
ghost use Rattle.std.specs.Prelude.{◌≡◌, ◌+◌, ◌*◌, ◌<◌, ◌^◌};
ghost use Rattle.gates.specs.Codes.{width_of};
ghost use Rattle.gates.specs.Gates.{values_of};
ghost use Rattle.moment.specs.Moment.{moment_size};
ghost use Rattle.citing.specs.Fields.{field_at};
ghost use Rattle.citing.specs.Answers.{cited_at, in_stretch, why_gate, answer_of};

use crate::{Field, four, one, two};
use gates::{Coding, Told};
use moment::Moment;
use reading::Stretch;

// The fields that give a gate's answer.
#[derive(Clone, Copy)]
pub struct GateCited {
    pub data_type: Field,
    pub scale: Field,
    pub offset: Field,
    pub bin_length: Field,
    pub code: Field,
}

#[derive(Clone, Copy)]
pub enum WhyGate {
    Answered(GateCited),
    // 30: how many whole radials there are.
    NoRadial(usize),
    // 31: where the radial stands.
    NoMoment(usize),
    // 32: how many gates there are.
    NoGate(usize),
}

// Code i of data that begin at a place, as wide as the bin length says.
fn code(file: &[u8], place: usize, bin: u32, i: usize) -> Field
    requires { place + 2 * i < 2 ^ 64 }
    ensures { result ≡ field_at file.now (place + width_of bin * i) (width_of bin) }
{
    match bin {
        1 => one(file, place + i),
        _ => two(file, place + 2 * i),
    }
}

// Gate i of the moment whose header stands at place m.
fn cited(file: &[u8], m: usize, i: usize) -> GateCited
    requires { m + moment_size + 2 * i < 2 ^ 64 }
    ensures { result ≡ cited_at file.now m i }
{
    let bin_length = two(file, m + Moment::BIN_LENGTH);
    GateCited {
        data_type: four(file, m),
        scale: four(file, m + Moment::SCALE),
        offset: four(file, m + Moment::OFFSET),
        bin_length,
        code: code(file, m + Moment::SIZE, bin_length.found, i),
    }
}

// In the radial of a stretch.
fn in_stretch(file: &[u8], t: u32, i: usize, s: Stretch) -> WhyGate
    ensures { result ≡ in_stretch file.now t i s }
{
    let start = s.start;
    let b = reading::own(file, s);
    match moments::find(b, t) {
        Some(p) => {
            let gates = gates::gates_in(moments::data(b, p), Moment::read(b, p).bin_length);
            if i < gates {
                WhyGate::Answered(cited(file, start + p, i))
            } else {
                WhyGate::NoGate(gates)
            }
        }
        None => WhyGate::NoMoment(start),
    }
}

// Why a gate of the moment of a type, from 0, is answered as it is.
pub fn gate(file: &[u8], sequence: usize, t: u32, i: usize) -> WhyGate
    ensures { result ≡ why_gate file.now sequence t i }
{
    match reading::find(file, sequence) {
        Some(s) => in_stretch(file, t, i, s),
        None => WhyGate::NoRadial(reading::read(file).radials),
    }
}

// The answer that cited numbers give by the formula.
pub fn answer(c: GateCited) -> Told
    ensures { values_of result ≡ values_of (answer_of c) }
{
    let coding = Coding {
        data_type: c.data_type.found,
        scale: (c.scale.found % 65536) as u16,
        offset: (c.offset.found % 65536) as u16,
    };
    gates::tell(coding, (c.code.found % 65536) as u16)
}
