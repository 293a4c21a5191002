// The gates of a volume, a line for each radial and each type that an old radial has: what is told of each gate, or that there is no
// such moment.
use ask::answers;
use gates::{Gate, Told};
use refusal::Refusal;
use std::io;

// Of a value its exact fraction too, not reduced.
fn print_told(out: &impl Print, told: Told) -> io::Result<()> {
    let kind = told.gate.kind();
    match told.gate {
        Gate::Value(_) => print!(out; " {kind} {}/{}", told.difference, told.scale),
        _ => print!(out; " {kind}"),
    }
}

fn print_gate(out: &impl Print, answer: Result<Told, Refusal>) -> io::Result<()> {
    match answer {
        Ok(told) => print_told(out, told),
        Err(refusal) => print!(out; " {}", refusal.number()),
    }
}

fn print_gates(
    out: &impl Print,
    volume: &[u8],
    sequence: usize,
    t: u32,
    count: usize,
) -> io::Result<()> {
    for i in 0..count {
        print_gate(out, answers::gate(volume, sequence, t, i))?;
    }
    Ok(())
}

fn print_moment(out: &impl Print, volume: &[u8], sequence: usize, t: u32) -> io::Result<()> {
    print!(out; "{sequence} {t}:")?;
    let m = answers::moment(volume, sequence, t);
    if m.number == 0 {
        let bytes = answers::moment_data(volume, sequence, t);
        print_gates(
            out,
            volume,
            sequence,
            t,
            gates::gates_in(bytes, m.header.bin_length),
        )?;
    } else {
        print!(out; " {}", m.number)?;
    }
    println!(out)
}

pub(crate) fn print_radials(out: &impl Print, volume: &[u8], count: usize) -> io::Result<()> {
    for sequence in 1..=count {
        for t in 2..=4 {
            print_moment(out, volume, sequence, t)?;
        }
    }
    Ok(())
}
