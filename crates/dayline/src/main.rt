// Reads a day's reports from standard input and prints the day line of each station. The first line has year, month and day, then a
// number and a climate row for each station; each report after it is cut after its `=`. The input may be of any length: it is read in
// pieces. All is printed at the end, so that an input which cannot be read to its end prints no day line.
#![tactic(auto)]

use dayline_day::run;
use dayline_text::input::first_line;
use std::io::{Result, Stdin, Stdout, Write};

// The whole program over a buffer for the pieces of the input. An error says that a read or a write failed.
fn whole(input: &mut Stdin, output: &mut Stdout, piece: &mut [u8]) -> Result<()> {
    let start = first_line(input, piece)?;
    run(input, output, piece, start)
}

fn main(rt: HostRuntime) {
    let mut piece = io::buffer();
    if whole(&mut rt.stdin(), &mut rt.stdout(), &mut piece).is_err() {
        let _ = rt
            .stderr()
            .write_all(b"dayline: a read or a write failed\n");
    }
}
