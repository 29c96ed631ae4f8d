// Opening a store: what is refused, and else a fresh store in its place. The stations' numbers and rows are two slices, as C hands them over.
ghost use Rattle.std.specs.Prelude.{◌≡◌, ◌&&◌, leb, ltb, length};
ghost use Rattle.store_layout.specs.Opening.{openable};
ghost use Rattle.store_opening.specs.Opened.{listed, Opened};

use crate::fresh::put_fresh;
use calendar::{Date, is_date};
use refusals::Refusal;
use store_numbers::at::{MOST_STATIONS, store_length};

// A station's number, above the one before, and its climate row. `store_fields::is_entry` tests a settled number besides, which is none yet.
fn is_listed(last: u32, number: u32, row: u16) -> bool
    ensures { result ≡ (ltb last number && (leb 1 number && leb number 99999 && leb row 1)) }
{
    (last < number) & ((1 <= number) & (number <= 99999) & (row <= 1))
}

// The numbers and the rows of all stations: a loop, since each turn leaves its number to the next.
fn are_listed(stations: &[u32], rows: &[u16]) -> bool
    requires { length rows.now ≡ length stations.now }
    ensures { result ≡ listed stations.now rows.now }
{
    let mut last = 0;
    for (&number, &row) in stations.iter().zip(rows) {
        if !is_listed(last, number, row) {
            return false;
        }
        last = number;
    }
    true
}

// Whether a store of `size` bytes can be opened.
fn is_openable(size: usize, date: Date, stations: &[u32], rows: &[u16]) -> bool
    ensures { result ≡ openable size date.year date.month date.day stations.now rows.now }
{
    let n = stations.len();
    if n < 1 {
        return false;
    }
    if MOST_STATIONS < n {
        return false;
    }
    if rows.len() != n {
        return false;
    }
    if size != store_length(n) {
        return false;
    }
    if !is_date(date) {
        return false;
    }
    are_listed(stations, rows)
}

// A store opened for a date and stations with their climate rows, whatever the buffer held. Refused, no byte differs.
pub fn open(store: &mut [u8], date: Date, stations: &[u32], rows: &[u16]) -> Result<(), Refusal>
    ensures { Opened store.old date.year date.month date.day stations.now rows.now result store.new }
{
    if !is_openable(store.len(), date, stations, rows) {
        return Err(Refusal::Unopenable);
    }
    put_fresh(store, date, stations, rows);
    Ok(())
}
