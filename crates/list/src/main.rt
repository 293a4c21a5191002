// Prints the listing of the file on standard input (document 01, the listing program).
#![tactic(auto)]

use std::io;

// A longer file is cut to the buffer's 65,536 bytes.
fn main(rt: HostRuntime) -> io::Result<()> {
    let mut buf = [0u8; 65536];
    let n = printing::read_full(&mut rt.stdin(), &mut buf)?;
    let file = &buf[..n];
    print!(rt; "verdict")?;
    printing::print_reading(&rt, reading::read(file))?;
    printing::print_lines(&rt, file)
}
