// Prints the vapour table as the generator fills it: 1001 numbers, hundredths of hPa, one a line, that of the dew point −500
// tenths of a degree first. A write that fails ends it, and is told on standard error.
#![tactic(auto)]

use std::io;
use vapour::PLACES;
use vapour::generator::fill;

// The numbers in decimal, one a line, up to one that was not written.
fn print_lines(rt: &impl Print, numbers: &[u16]) -> io::Result<()> {
    for number in numbers {
        println!(rt; "{number}")?;
    }
    Ok(())
}

// The table, up to a line that was not written.
fn print_table(rt: &impl Print) -> io::Result<()> {
    let mut entries = [0u16; PLACES];
    fill(&mut entries).map_err(|_| io::Error::other("the table has another length"))?;
    print_lines(rt, &entries)
}

fn main(rt: HostRuntime) -> io::Result<()> {
    if print_table(&rt).is_err() {
        return eprintln!(rt; "vapour_table: a write failed");
    }
    Ok(())
}
