// Says why. Standard input is one case after the other: how many bytes a volume has, how many questions follow it, and its bytes; then each
// question, by its radial, its type and its gate. Each of these numbers has four bytes, little-endian. Without a question it is told why
// the file is refused, else why each gate is as it is. An empty line parts two answers. Of the input 2,097,172 bytes are taken, enough for
// a volume of 2,097,152 bytes and a question; a longer one is not looked at.
#![tactic(auto)]

mod angles;
mod numbers;
mod words;

ghost use Rattle.std.specs.Prelude.{◌≤◌, ◌-◌, length, IfOk};

use citing::{answers, refusals};
use printing::{behind, first, read_full};
use std::io;
use std::io::Read;

// The bytes of a question.
const QUESTION: usize = 12;

// A question, of which the input may end in the midst.
fn say_question(out: &impl Print, volume: &[u8], question: &[u8]) -> io::Result<()> {
    words::say_gate(
        out,
        answers::gate(
            volume,
            le::u32_at(question, 0) as usize,
            le::u32_at(question, 4),
            le::u32_at(question, 8) as usize,
        ),
    )
}

// So many questions, or as many as there are.
fn say_questions(
    out: &impl Print,
    volume: &[u8],
    questions: &[u8],
    count: usize,
) -> io::Result<()> {
    for (i, question) in questions.chunks(QUESTION).take(count).enumerate() {
        if 0 < i {
            println!(out)?;
        }
        say_question(out, volume, question)?;
    }
    Ok(())
}

// The case that the input begins with, and what follows it.
fn case<'a>(out: &impl Print, input: &'a [u8]) -> io::Result<&'a [u8]>
    ensures { IfOk result (λ rest. length rest.now ≤ length input.now - 8) }
{
    let bytes = le::u32_at(input, 0) as usize;
    let count = le::u32_at(input, 4) as usize;
    let behind_counts = behind(input, 8);
    let volume = first(behind_counts, bytes);
    let questions = behind(behind_counts, bytes);
    if count == 0 {
        words::say_file(out, refusals::file(volume))?;
    } else {
        say_questions(out, volume, questions, count)?;
    }
    Ok(behind(questions, QUESTION * count))
}

fn each(out: &impl Print, input: &[u8]) -> io::Result<()> {
    // By hand: a case says how long it is, so no chunks of one length part the input.
    let mut rest = input;
    while !rest.is_empty() {
        if rest.len() < input.len() {
            println!(out)?;
        }
        rest = case(out, rest)?;
    }
    Ok(())
}

fn run(out: &impl Print, input: &mut impl Read, buf: &mut [u8]) -> io::Result<()> {
    let n = read_full(input, buf)?;
    if n < buf.len() {
        each(out, first(buf, n))
    } else {
        println!(out; "too long")
    }
}

fn main(rt: HostRuntime) -> io::Result<()> {
    // one byte more than the longest volume and what is said before and behind it
    let mut buf = [0u8; 2097173];
    run(&rt, &mut rt.stdin(), &mut buf)
}
