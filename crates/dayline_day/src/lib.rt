// A day over an open store, for the program `dayline`: its reports read in pieces and filed, then the stations' lines printed.
// Input, output and piece are handed on side by side: a struct of the three borrows would be taken apart at each call.
#![tactic(auto)]

mod filing;

ghost use Rattle.dayline_text.specs.Input.{Placed};

use crate::filing::{Progress, open, station_text};
use dayline_text::first_line::Opening;
use dayline_text::input::{Place, Start, read};
use dayline_text::print::refused_text;
use std::io::{ErrorKind, Result, Stdin, Stdout, Write};
use store_numbers::at::{store_length, store_space};

// ---- the input

// The reports of the pieces that are still to be read. A proved loop has to end, so the pieces are counted, up to a number that no run reaches.
fn feed_all(
    input: &mut Stdin,
    store: &mut [u8],
    piece: &mut [u8],
    progress: &mut Progress,
) -> Result<()> {
    for _ in 0..u64::MAX {
        let got = read(input, piece)?;
        if got == 0 {
            return Ok(());
        }
        progress.feed(store, &piece[..got]);
    }
    Err(ErrorKind::Other.into())
}

// All reports, filed in an open store: how many were refused.
fn reports(input: &mut Stdin, store: &mut [u8], piece: &mut [u8], place: Place) -> Result<u64>
    requires { Placed piece.old place }
{
    let mut progress = Progress::new();
    progress.feed(store, &piece[place.from..place.got]);
    feed_all(input, store, piece, &mut progress)?;
    Ok(progress.tail(store))
}

// ---- the output

// The stations' lines; a write that fails ends them.
fn print_all(output: &mut Stdout, store: &mut [u8], stations: &[u32]) -> Result<()> {
    for &station in stations {
        output.write_all(&station_text(store, station))?;
    }
    Ok(())
}

// What is printed where the first line cannot open a store.
fn print_unopened(output: &mut Stdout) -> Result<()> {
    output.write_all(b"open 10\n")
}

// ---- the day

// The day of the stations that the first line names. No line is printed of an input that cannot be read to its end.
fn run_day(
    input: &mut Stdin,
    output: &mut Stdout,
    piece: &mut [u8],
    place: Place,
    opening: &Opening,
) -> Result<()>
    requires { Placed piece.old place }
{
    let stations: &[u32] = &opening.stations;
    let mut space = store_space();
    let store = &mut space[..store_length(stations.len())];
    if open(store, opening).is_err() {
        return print_unopened(output);
    }
    let refused = reports(input, store, piece, place)?;
    print_all(output, store, stations)?;
    output.write_all(&refused_text(refused))
}

// The day behind a first line that is read.
pub fn run(input: &mut Stdin, output: &mut Stdout, piece: &mut [u8], start: Start) -> Result<()>
    requires { Placed piece.old start.place }
{
    let place = start.place;
    match start.line.opened() {
        Some(opening) => run_day(input, output, piece, place, &opening),
        None => print_unopened(output),
    }
}
