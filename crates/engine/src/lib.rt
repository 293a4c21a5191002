// A whole list of questions on gates, answered by an index (document 02, #109). Whether the index is right for the file is found
// once; then each question goes straight to its radial, and costs the moments of that radial alone.
#![tactic(auto)]

ghost use Rattle.std.specs.Prelude.{true, ◌≡◌, ◌%◌, ◌≤◌, min, length};
ghost use Rattle.gates.specs.Rows.{filled};
ghost use Rattle.reading.specs.Reading.{stretches, nth};
ghost use Rattle.ask.specs.Answers.{told_gate_answer};
ghost use Rattle.ask.specs.Growth.{gate_asked};
ghost use Rattle.index.specs.Answer.{right_for};
ghost use Rattle.engine.specs.Engine.{asked, kind_shown, hundredths_shown, kinds_of, hundredths_of, Answers};

use ask::answers;
use gates::Told;
use index::said;
use radial::Radial;
use reading::Stretch;
use refusal::Refusal;

// The whole radial with a sequence number, from 1: it starts where the index says, and its own header says where it ends. The
// header is read from its own bytes: how many there are is then known, so that the compiler copies none of them.
fn find(file: &[u8], index: &[u8], sequence: usize) -> Option<Stretch>
    requires { right_for file.now index.now ≡ true }
    ensures { result ≡ nth (stretches file.now) sequence }
{
    match said::find(index, sequence) {
        Some(start) => {
            let data = start + Radial::SIZE;
            let header = Radial::read(&file[start..data], 0);
            Some(Stretch {
                start,
                end: data + (header.length_of_data as usize),
                cut: header.elevation_number,
            })
        }
        None => None,
    }
}

// A gate, as the plain walk answers it.
fn gate(file: &[u8], index: &[u8], sequence: usize, t: u32, i: usize) -> Result<Told, Refusal>
    requires { right_for file.now index.now ≡ true }
    ensures { told_gate_answer result ≡ gate_asked file.now sequence t i }
{
    match find(file, index, sequence) {
        Some(s) => answers::gate_at(file, s, t, i),
        None => Err(Refusal::NoRadial),
    }
}

// What is shown of an answer. A refusal's number is 30, 31 or 32.
fn kind(answer: Result<Told, Refusal>) -> u8
    ensures { result ≡ kind_shown (told_gate_answer answer) % 256 }
{
    match answer {
        Ok(told) => {
            let gate = told.gate;
            gate.kind()
        }
        Err(refusal) => (refusal.number() % 256) as u8,
    }
}

fn hundredths_of(answer: Result<Told, Refusal>) -> i32
    ensures { result ≡ hundredths_shown (told_gate_answer answer) }
{
    match answer {
        Ok(told) => told.hundredths,
        Err(_) => 0,
    }
}

// Each of n questions, where the lists and the buffers have as many entries.
fn fill(
    file: &[u8],
    index: &[u8],
    radials: &[usize],
    types: &[u32],
    gates: &[usize],
    n: usize,
    kinds: &mut [u8],
    hundredths: &mut [i32],
)
    requires index_value { right_for file.now index.now ≡ true }
    requires n_value { n ≡ min (length radials.now) (min (length types.now) (length gates.now)) }
    requires n_in_bounds { (n ≤ length kinds.old) × (n ≤ length hundredths.old) }
    ensures { (kinds.new ≡ filled (kinds_of file.now (asked radials.now types.now gates.now)) kinds.old) × (hundredths.new ≡ filled (hundredths_of file.now (asked radials.now types.now gates.now)) hundredths.old) }
{
    for i in 0..n {
        let answer = gate(file, index, radials[i], types[i], gates[i]);
        kinds[i] = kind(answer);
        hundredths[i] = hundredths_of(answer);
    }
}

// Fills a kind and the hundredths for each question, of which there are as many as the shortest list has entries, and says how many.
pub fn answer(
    file: &[u8],
    index: &[u8],
    radials: &[usize],
    types: &[u32],
    gates: &[usize],
    kinds: &mut [u8],
    hundredths: &mut [i32],
) -> Result<usize, Refusal>
    ensures { Answers file.now index.now (asked radials.now types.now gates.now) kinds.old hundredths.old result kinds.new hundredths.new }
{
    if !index::right(file, index) {
        return Err(Refusal::WrongIndex);
    }
    let n = radials.len().min(types.len()).min(gates.len());
    if kinds.len().min(hundredths.len()) < n {
        return Err(Refusal::NoRoom);
    }
    fill(file, index, radials, types, gates, n, kinds, hundredths);
    Ok(n)
}
