// What the program prints.
use printing::sum;
use refusal::Refusal;
use std::{fmt, io};
use walk::due::Walk;
use writer::order::{Answer, Put};

pub(crate) fn yes_or_no(b: bool) -> &'static str {
    if b { "yes" } else { "no" }
}

// Bytes, two digits each.
#[derive(Clone, Copy)]
pub(crate) struct Hex<'a>(pub(crate) &'a [u8]);

impl fmt::Display for Hex<'_> {
    fn fmt<W: fmt::Write>(&self, f: &mut fmt::Formatter<W>) -> fmt::Result {
        for byte in self.0 {
            write!(f, "{byte:02x}")?;
        }
        Ok(())
    }
}

// The answer to an index: one that was written is told by its length.
pub(crate) fn print_index_answer<F: FnOnce(usize) -> io::Result<()>>(
    out: &impl Print,
    answer: Result<usize, Refusal>,
    written: F,
) -> io::Result<()>
    requires { F.IsAlwaysCallable written }
{
    match answer {
        Ok(n) => written(n),
        Err(refusal) => print!(out; " refused {}", refusal.number()),
    }
}

// The state that a put leaves. Of an answer only a refusal is printed.
pub(crate) fn onward(out: &impl Print, p: Put) -> io::Result<Walk> {
    if let Answer::Refused(n, place) = p.answer {
        print!(out; " refused {n} {place}")?;
    }
    Ok(p.walk)
}

// What a put that is to be refused answers; then, before and after it, the room's sum and the state's count of bytes.
pub(crate) fn try_put<F: FnOnce(Walk, &mut [u8]) -> Put>(
    out: &impl Print,
    label: &str,
    w: Walk,
    room: &mut [u8],
    put: F,
) -> io::Result<()>
    requires { F.IsAlwaysCallable put }
{
    let before = sum(room);
    let answer = put(w, room);
    print!(out; "{label}:")?;
    let after = onward(out, answer)?;
    println!(out;
        ", room {before} {}, written {} {}",
        sum(room),
        w.at,
        after.at
    )
}
