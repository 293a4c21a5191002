// The words: of a file, with the table of fields and clauses, then of a gate.
use crate::angles::angle_of;
use crate::numbers::{Bytes, Hundredths, number_of};
use citing::Field;
use citing::answers::{GateCited, WhyGate};
use citing::refusals::{Block, Cited, Why};
use gates::{Gate, Told};
use rules::check::Clause;
use std::{fmt, io};
use walk::due::Due;

fn say_refused(out: &impl Print, n: u32, place: usize) -> io::Result<()> {
    println!(out; "refused {n} {place}")
}

// ---- the block

// A block by its name.
#[derive(Clone, Copy)]
struct Named(Block);

impl fmt::Display for Named {
    fn fmt<W: fmt::Write>(&self, f: &mut fmt::Formatter<W>) -> fmt::Result {
        let b = self.0;
        match b.kind {
            Due::Generic => write!(f, "generic header"),
            Due::Site => write!(f, "site"),
            Due::Task => write!(f, "task"),
            Due::Cut => write!(f, "cut {}", b.number),
            Due::Radial => write!(f, "radial {}", b.number),
            // A moment: data is never cited, and at a volume's end it is the radial before it.
            _ => write!(f, "moment {} of radial {}", b.moment, b.number),
        }
    }
}

fn say_block(out: &impl Print, b: Block) -> io::Result<()> {
    println!(out; "block: {}, at byte {}", Named(b), b.place)
}

// ---- the field, and the words of the broken clause

// A clause in words: its field's name, and how it is broken. By its number; by the field's place in its block, where a number has several
// fields; by which of the field's clauses it is, where it has several. The last row of each stands for all that is left: no clause has a
// number, a place or a `which` that is not here.
fn clause_words(c: Clause) -> (&'static str, &'static str) {
    match (c.number, c.place, c.which) {
        (1, ..) => ("magic", "it differs from the magic, bytes 52 53 54 4D"),
        (2, ..) => ("generic type", "it is not 1"),
        (3, ..) => ("latitude", "it is not in -90..90"),
        (4, ..) => ("longitude", "it is not in -180..180"),
        (5, ..) => ("polarization", "it is not 1..4"),
        (6, ..) => ("scan type", "it is not 0..6"),
        (7, ..) => ("start time", "it is below 0"),
        (8, _, 1) => ("cut number", "it is not 1..256"),
        (8, ..) => ("cut number", "it is not 1, while scan type is 2"),
        (9, 0, _) => ("process mode", "it is not 1..2"),
        (9, 4, _) => ("wave form", "it is not 0..6"),
        (9, 16, _) => ("unfold mode", "it is not 1..4"),
        (9, 44, _) => ("log resolution", "it is not 1..5000"),
        (9, 48, _) => ("Doppler resolution", "it is not 1..5000"),
        (9, ..) => ("phase mode", "it is not 1..3"),
        (10, ..) => ("state", "this state is not allowed here"),
        (11, ..) => ("spot blank", "it is not 0..1"),
        (12, _, 1) => ("sequence", "it is not 1 more than the radials before it"),
        (12, ..) => ("sequence", "it would pass 65,536"),
        (13, _, 1) => (
            "radial number",
            "it is not the radial's count in its cut, from 1",
        ),
        (13, ..) => ("radial number", "the count is over 1000"),
        (14, ..) => ("elevation number", "it is not the cut's number"),
        (15, ..) => ("azimuth", "it is not in 0..360"),
        (16, ..) => ("elevation", "it is not in -2..90"),
        (17, 28, _) => ("seconds", "it is below 0"),
        (17, ..) => ("microseconds", "it is not 0..999,999"),
        (18, ..) => ("length of data", "it is not 1..100,000"),
        (19, _, 1) => ("moment number", "it is not 1..64"),
        (19, ..) => ("moment number", "33 times it is over the length of data"),
        (20, _, 1) => ("type", "it is not 1..64"),
        (20, _, 2) => ("type", "it was seen before in this radial"),
        (20, ..) => ("type", "its bit in the cut's moments mask is 0"),
        (21, ..) => ("scale", "it is not 1..32,768"),
        (22, ..) => ("offset", "it is not 0..32,768"),
        (23, _, 1) => (
            "bin length",
            "it is not 1, while the type's bit in the cut's size mask is 0",
        ),
        (23, ..) => (
            "bin length",
            "it is not 2, while the type's bit in the cut's size mask is 1",
        ),
        (24, _, 1) => ("length", "it is not 1..32,768"),
        (24, _, 2) => ("length", "it is not a multiple of bin length"),
        (24, ..) => (
            "length",
            "it is wrong for the tiling: the last moment leaves no byte, any other 33 for each after it",
        ),
        _ => ("state", "bytes follow the volume that this radial closes"),
    }
}

// What is found in a field: an angle, or a number.
#[derive(Clone, Copy)]
struct Found(Clause, Field);

impl fmt::Display for Found {
    fn fmt<W: fmt::Write>(&self, f: &mut fmt::Formatter<W>) -> fmt::Result {
        match self.0.number {
            3 | 4 | 15 | 16 => write!(f, "{}", angle_of(self.1.found)),
            _ => write!(f, "{}", number_of(self.1)),
        }
    }
}

fn say_clause(out: &impl Print, c: Clause, f: Field) -> io::Result<()> {
    let (name, broken) = clause_words(c);
    println!(out; "field: {name}, {} bytes at byte {}", f.size, f.place)?;
    println!(out; "found: {}, bytes{}", Found(c, f), Bytes(f))?;
    println!(out; "broken: {broken}")
}

// ---- a file

fn say_cited(out: &impl Print, c: Cited) -> io::Result<()> {
    say_refused(out, c.clause.number, c.place)?;
    say_block(out, c.block)?;
    say_clause(out, c.clause, c.field)
}

// Number 40, which has no field.
fn say_hopeless(out: &impl Print, b: Block) -> io::Result<()> {
    say_refused(out, 40, b.place)?;
    say_block(out, b)?;
    println!(out; "broken: no further bytes would make the file complete")
}

pub(crate) fn say_file(out: &impl Print, why: Why) -> io::Result<()> {
    match why {
        Why::Complete => println!(out; "nothing is refused: the file is complete"),
        Why::Open(missing) => println!(out;
            "nothing is refused: the file is open, missing bytes: {missing}"
        ),
        Why::Broken(c) => say_cited(out, c),
        Why::Hopeless(b) => say_hopeless(out, b),
    }
}

// ---- a gate

// No field of an accepted header is below 0, and a code has no sign.
fn say_part(out: &impl Print, name: &str, f: Field) -> io::Result<()> {
    println!(out;
        "{name}: {}, bytes{} at byte {}",
        f.found,
        Bytes(f),
        f.place
    )
}

// The sentence for print. A value is told by its fraction, not reduced, and its hundredths.
fn say_told(out: &impl Print, told: Told) -> io::Result<()> {
    match told.gate {
        Gate::BelowThreshold => println!(out; "no echo: code 0"),
        Gate::RangeFolded => println!(out; "range folded: code 1"),
        Gate::NotScanned => println!(out; "the radar did not look: code 2"),
        Gate::Unknown => println!(out; "unknown: code 3"),
        Gate::Reserved => println!(out; "reserved: code 4"),
        Gate::Value(_) => println!(out;
            "{}/{}, {}",
            told.difference,
            told.scale,
            Hundredths::from(told.hundredths)
        ),
        Gate::Class(code) => println!(out; "class {code}"),
    }
}

// The sentence comes from the cited fields alone.
fn say_answer(out: &impl Print, c: GateCited) -> io::Result<()> {
    say_part(out, "type", c.data_type)?;
    say_part(out, "scale", c.scale)?;
    say_part(out, "offset", c.offset)?;
    say_part(out, "bin length", c.bin_length)?;
    say_part(out, "code", c.code)?;
    say_told(out, citing::answers::answer(c))
}

// A question that is refused is told with what there is instead.
pub(crate) fn say_gate(out: &impl Print, why: WhyGate) -> io::Result<()> {
    match why {
        WhyGate::Answered(c) => say_answer(out, c),
        WhyGate::NoRadial(n) => {
            say_refused(out, 30, 0)?;
            println!(out; "no such whole radial; the file has {n}")
        }
        WhyGate::NoMoment(place) => {
            say_refused(out, 31, 0)?;
            println!(out; "no such moment in the radial, which stands at byte {place}")
        }
        WhyGate::NoGate(n) => {
            say_refused(out, 32, 0)?;
            println!(out; "no such gate; the moment has {n}")
        }
    }
}
