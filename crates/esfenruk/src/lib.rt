// The calls for C and Rust: open, file, settle, begin, step, cell, day and bulletin. Each returns 0 or the refusal's number, and writes what it
// answers into the caller's arrays, which a refusal leaves as they are. Beside them the generator of the vapour table, which needs no store. No call has a
// `requires`: each answers on every buffer and argument. The arguments are those that C hands over, a date as three numbers, stations and rows
// as two arrays; the calls that give a number alone are alike but for the call of `engine`, and are C's names for it.
#![tactic(auto)]

ghost use Rattle.std.specs.Prelude.{◌≡◌};
ghost use Rattle.esfenruk.specs.Arrays.{cell_numbers, DayReturned};
ghost use Rattle.esfenruk.specs.Numbers.{Returned, Delivered};
ghost use Rattle.capi.specs.Numbers.{number};
ghost use Rattle.bulletin.specs.Bulletin as Bulletin;
ghost use Rattle.engine_answers.specs.Replies.{open_outcome};
ghost use Rattle.rules.specs.Calls as Calls;
ghost use Rattle.rules.specs.Step.{step};
ghost use Rattle.vapour.specs.Generator.{Fills};

use calendar::Date;
use capi::arrays::{line_floats, line_numbers};
use capi::numbers::{ACCEPTED, cell_numbers, count_numbers, filling_number, number_of};

// Opens a store for a date and stations, each with its climate row: 0 or 10.
#[unsafe(no_mangle)]
pub extern "C" fn esfenruk_open(
    store: &mut [u8],
    year: u32,
    month: u32,
    day: u32,
    stations: &[u32],
    rows: &[u16],
) -> u32
    ensures { Returned (open_outcome store.old year month day stations.now rows.now) result store.new }
{
    number_of(engine::open(store, Date { year, month, day }, stations, rows))
}

// Files a report at a rank, 0 for an ordinary one, 1 to 24 for CCA to CCX: 0, or 9, then 13 for a rank above 24, 1 to 7, 13 for a rank below
// the slot's, 8.
#[unsafe(no_mangle)]
pub extern "C" fn esfenruk_file(store: &mut [u8], text: &[u8], rank: u32) -> u32
    ensures { Returned (step (Calls.file text.now rank) store.old) result store.new }
{
    number_of(engine::file(store, text, rank))
}

// Settles a station: 0, or 9, 6.
#[unsafe(no_mangle)]
pub extern "C" fn esfenruk_settle(store: &mut [u8], station: u32) -> u32
    ensures { Returned (step (Calls.settle station) store.old) result store.new }
{
    number_of(engine::settle(store, station))
}

// Begins to settle a station in portions: 0, or 9, 6.
#[unsafe(no_mangle)]
pub extern "C" fn esfenruk_begin(store: &mut [u8], station: u32) -> u32
    ensures { Returned (step (Calls.begin station) store.old) result store.new }
{
    number_of(engine::begin(store, station))
}

// Does the step that is due: 0, or 9, 6, 14.
#[unsafe(no_mangle)]
pub extern "C" fn esfenruk_step(store: &mut [u8], station: u32) -> u32
    ensures { Returned (step (Calls.step station) store.old) result store.new }
{
    number_of(engine::step(store, station))
}

// One checked cell, by element (0 to 8) and slot, into `out`: 0, or 9, 6, 12, 11.
#[unsafe(no_mangle)]
pub extern "C" fn esfenruk_cell(
    store: &[u8],
    station: u32,
    element: u32,
    slot: u32,
    out: &mut [i32; 3],
) -> u32
    ensures number { result ≡ number (step (Calls.cell station element slot) store.now).answer }
    ensures array { out.new ≡ cell_numbers (step (Calls.cell station element slot) store.now).answer out.old }
{
    match engine::cell(store, station, element, slot) {
        Err(refusal) => u32::from(refusal),
        Ok(c) => {
            *out = cell_numbers(c);
            ACCEPTED
        }
    }
}

// The day line of a station, into `means`, each exact, and `numbers`: 0, or 9, 6, 11.
#[unsafe(no_mangle)]
pub extern "C" fn esfenruk_day(
    store: &[u8],
    station: u32,
    means: &mut [f64; 6],
    numbers: &mut [i32; 14],
) -> u32
    ensures { DayReturned (step (Calls.day station) store.now).answer means.old numbers.old result means.new numbers.new }
{
    match engine::day(store, station) {
        Err(refusal) => u32::from(refusal),
        Ok(l) => {
            *means = line_floats(l);
            *numbers = line_numbers(l);
            ACCEPTED
        }
    }
}

// Files the reports of a bulletin in order, all at one rank, and how many were accepted and refused into `counts`: 0, or 9, 13 for a rank
// above 24, 1, 3, 4 for the whole.
#[unsafe(no_mangle)]
pub extern "C" fn esfenruk_bulletin(
    store: &mut [u8],
    text: &[u8],
    rank: u32,
    counts: &mut [u32; 2],
) -> u32
    ensures { Delivered (Bulletin.result store.old text.now rank) counts.old result store.new counts.new }
{
    match bulletin::bulletin(store, text, rank) {
        Err(refusal) => u32::from(refusal),
        Ok(t) => {
            *counts = count_numbers(t);
            ACCEPTED
        }
    }
}

// Fills `entries` with the vapour table, if it has 1001 numbers: 0, or the length needed.
#[unsafe(no_mangle)]
pub extern "C" fn esfenruk_vapour_table(entries: &mut [u16]) -> u32
    ensures { Fills 0 (λ n. n) entries.old result entries.new }
{
    filling_number(vapour::generator::fill(entries))
}
