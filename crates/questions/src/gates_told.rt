// Gates: each printed for itself, or all of a moment in one checksum.
use crate::checksum::{mix, mix_signed};
use ask::answers;
use gates::{Coding, Gate, Told};
use refusal::Refusal;
use std::io;

// The bits of a value's float. No value is a NaN; the test saves the proof of that.
fn bits_of(v: f64) -> u64 {
    if v.is_nan() { 0 } else { v.to_bits() }
}

// The bits of a value's float, or the class; 0 for a special code.
fn carried(gate: Gate) -> u64 {
    match gate {
        Gate::BelowThreshold
        | Gate::RangeFolded
        | Gate::NotScanned
        | Gate::Unknown
        | Gate::Reserved => 0,
        Gate::Value(v) => bits_of(v),
        Gate::Class(code) => u64::from(code),
    }
}

fn print_told(out: &impl Print, told: Told) -> io::Result<()> {
    print!(out;
        " {} {} {} {} {:016x}",
        told.gate.kind(),
        told.difference,
        told.scale,
        told.hundredths,
        carried(told.gate)
    )
}

fn print_answer(out: &impl Print, answer: Result<Told, Refusal>) -> io::Result<()> {
    match answer {
        Ok(told) => print_told(out, told),
        Err(refusal) => print!(out; " no{}", refusal.number()),
    }
}

// A line for each gate, to the first that is refused. No moment of the volume has 20 gates.
pub(crate) fn print_each(out: &impl Print, file: &[u8], sequence: u32, t: u32) -> io::Result<()> {
    for i in 0..20 {
        let answer = answers::gate(file, sequence as usize, t, i);
        print!(out; "gate {sequence} {t} {i}:")?;
        print_answer(out, answer)?;
        println!(out)?;
        if answer.is_err() {
            break;
        }
    }
    Ok(())
}

fn mix_told(sum: u64, told: Told) -> u64 {
    let a = mix(sum, u64::from(told.gate.kind()));
    let b = mix_signed(a, told.difference);
    let c = mix(b, u64::from(told.scale));
    let d = mix_signed(c, told.hundredths);
    mix(d, carried(told.gate))
}

fn mix_gate(sum: u64, answer: Result<Told, Refusal>) -> u64 {
    match answer {
        Ok(told) => mix_told(sum, told),
        Err(refusal) => mix(sum, u64::from(refusal.number())),
    }
}

// The answers for gates 0 to 19, those past the last among them.
fn sum(file: &[u8], sequence: u32, t: u32) -> u64 {
    (0..20).fold(
        0,
        |s, i| mix_gate(s, answers::gate(file, sequence as usize, t, i)),
    )
}

fn print_refusal(out: &impl Print, answer: Result<Told, Refusal>) -> io::Result<()> {
    match answer {
        Ok(_) => print!(out; "yes"),
        Err(refusal) => print!(out; "no{}", refusal.number()),
    }
}

// What is told past all gates, and the checksum.
pub(crate) fn print_all(out: &impl Print, file: &[u8], sequence: u32, t: u32) -> io::Result<()> {
    print_refusal(out, answers::gate(file, sequence as usize, t, usize::MAX))?;
    print!(out; "/{}", sum(file, sequence, t))
}

// What `gates` tells of a code with an offset of 66.
pub(crate) fn print_over(out: &impl Print, scale: u16, code: u16) -> io::Result<()> {
    print!(out; "code {code} less 66 over {scale}:")?;
    let c = Coding {
        data_type: 2,
        scale,
        offset: 66,
    };
    print_told(out, gates::tell(c, code))?;
    println!(out)
}
