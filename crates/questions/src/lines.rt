// The lines of a section: for each sequence number or cut that is asked, the answers for every type that is asked.
use ask::answers;
use ask::answers::RadialAnswer;
use moment::Moment;
use std::io;

fn print_radial_answer(out: &impl Print, a: RadialAnswer) -> io::Result<()> {
    if a.number == 0 {
        let h = a.header;
        print!(out;
            " {} {} {} {}",
            a.place, h.state, h.sequence, h.elevation_number
        )
    } else {
        print!(out; " no{} {}", a.number, a.place)
    }
}

pub(crate) fn print_radial(out: &impl Print, file: &[u8], sequence: u32) -> io::Result<()> {
    print!(out; "radial {sequence}:")?;
    print_radial_answer(out, answers::radial(file, sequence as usize))?;
    println!(out)
}

fn print_ends(out: &impl Print, bytes: &[u8]) -> io::Result<()> {
    if let (Some(first), Some(last)) = (bytes.first(), bytes.last()) {
        print!(out; "/{first}/{last}")?;
    }
    Ok(())
}

fn print_header(out: &impl Print, h: Moment) -> io::Result<()> {
    print!(out; "{}/{}/{}/{}", h.scale, h.offset, h.bin_length, h.length)
}

// The header, and of the data the number of bytes, the first and the last.
pub(crate) fn print_moment(out: &impl Print, file: &[u8], sequence: u32, t: u32) -> io::Result<()> {
    let a = answers::moment(file, sequence as usize, t);
    let bytes = answers::moment_data(file, sequence as usize, t);
    if a.number == 0 {
        print_header(out, a.header)?;
    } else {
        print!(out; "no{}", a.number)?;
    }
    print!(out; "/{}", bytes.len())?;
    print_ends(out, bytes)
}

// 0 and 65 are no types. A bit of the masks taken modulo 64 would find type 1 in 65.
const TYPES: [u32; 16] = [0, 1, 2, 3, 4, 5, 6, 7, 8, 13, 14, 15, 16, 63, 64, 65];

// A line for each number below an end, with what is printed of that number and each type.
pub(crate) fn print_lines<F: Fn(u32, u32) -> io::Result<()>>(
    out: &impl Print,
    name: &str,
    end: u32,
    print_answer: F,
) -> io::Result<()>
    requires { F.IsAlwaysCallable print_answer }
{
    for k in 0..end {
        print!(out; "{name} {k}:")?;
        for t in TYPES {
            print!(out; " {t}=")?;
            print_answer(k, t)?;
        }
        println!(out)?;
    }
    Ok(())
}
