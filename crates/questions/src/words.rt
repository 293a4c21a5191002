// What is told of a gate, in words.
use ask::answers;
use gates::{Gate, Told};
use refusal::Refusal;
use std::io;

fn say(out: &impl Print, answer: Result<Told, Refusal>) -> io::Result<()> {
    match answer {
        Ok(told) => say_gate(out, told.gate),
        Err(refusal) => say_refusal(out, refusal),
    }
}

fn say_gate(out: &impl Print, gate: Gate) -> io::Result<()> {
    match gate {
        Gate::BelowThreshold => print!(out; " no echo"),
        Gate::RangeFolded => print!(out; " range folded"),
        Gate::NotScanned => print!(out; " the radar did not look"),
        Gate::Unknown => print!(out; " unknown"),
        Gate::Reserved => print!(out; " reserved"),
        Gate::Value(_) => print!(out; " a value"),
        Gate::Class(code) => print!(out; " class {code}"),
    }
}

fn say_refusal(out: &impl Print, refusal: Refusal) -> io::Result<()> {
    match refusal {
        Refusal::NoRadial => print!(out; " nothing yet: no such whole radial"),
        Refusal::NoMoment => print!(out; " no such moment in the radial"),
        _ => print!(out; " no such gate in the moment"),
    }
}

pub(crate) fn print_words(
    out: &impl Print,
    file: &[u8],
    sequence: u32,
    t: u32,
    i: usize,
) -> io::Result<()> {
    print!(out; "in words {sequence} {t} {i}:")?;
    say(out, answers::gate(file, sequence as usize, t, i))?;
    println!(out)
}
