// The calls on a store of one day: open, file, settle, begin, step, cell, day. No call has a `requires`: each answers on every buffer and argument, and
// its contract gives the whole answer and every byte of the store at exit. The arguments are the calls' own, in the order of the papers. Calls of
// one station are alike in finding it; each states its own contract, so they are not one.
#![tactic(auto)]

mod reading;

ghost use Rattle.std.specs.Prelude.{◌≡◌};
ghost use Rattle.rules.specs.Calls as Calls;
ghost use Rattle.engine_answers.specs.Replies.{reply, cell_reply, SaysDay, Did, open_outcome};
ghost use Rattle.rules.specs.Step as Step;
ghost use Rattle.rules.specs.Step.{step};

use calendar::Date;
use daily::DayLine;
use quality::column::Cell;
use quality::head::HIGHEST_RANK;
use refusals::Refusal;
use store_soundness::find::locate;
use store_soundness::sound::is_sound;

// A store opened for a date and stations, each with its climate row: refused 10.
pub fn open(store: &mut [u8], date: Date, stations: &[u32], rows: &[u16]) -> Result<(), Refusal>
    ensures { Did (open_outcome store.old date.year date.month date.day stations.now rows.now) (reply result) store.new }
{
    store_opening::open::open(store, date, stations, rows)
}

// A report filed at a rank, 0 for an ordinary one, 1 to 24 for CCA to CCX: refused 9, then 13 for a rank above 24, 1 to 7, 13 for a rank
// below the slot's, 8.
#[tactic(auto, using(crate::proofs::Located::rank_refused))]
pub fn file(store: &mut [u8], text: &[u8], rank: u32) -> Result<(), Refusal>
    ensures { Did (step (Calls.file text.now rank) store.old) (reply result) store.new }
{
    if !is_sound(store) {
        return Err(Refusal::Unsound);
    }
    if HIGHEST_RANK < rank {
        return Err(Refusal::Rank);
    }
    engine_filing::file_in(store, text, rank as u8)
}

// A station settled: refused 9, 6.
pub fn settle(store: &mut [u8], station: u32) -> Result<(), Refusal>
    ensures { Did (step (Calls.settle station) store.old) (reply result) store.new }
{
    let index = locate(store, station)?;
    engine_settling::settle_at(store, index);
    Ok(())
}

// A settling in portions begun, whatever there was of one: refused 9, 6.
pub fn begin(store: &mut [u8], station: u32) -> Result<(), Refusal>
    ensures { Did (step (Calls.begin station) store.old) (reply result) store.new }
{
    let index = locate(store, station)?;
    engine_settling::portions::begin_at(store, index);
    Ok(())
}

// The step of it that is due, one of range, internal, time and fill: refused 9, 6, 14.
#[tactic(auto, using(crate::proofs::Located::step_absent))]
pub fn step(store: &mut [u8], station: u32) -> Result<(), Refusal>
    ensures { Did (Step.step (Calls.step station) store.old) (reply result) store.new }
{
    let index = locate(store, station)?; // 6 before 14
    engine_settling::portions::step_at(store, index)
}

// One checked cell of a station, by element (0 to 8) and slot: refused 9, 6, 12, 11.
#[tactic(auto, using(crate::proofs::Located::cell_absent))]
pub fn cell(store: &[u8], station: u32, element: u32, slot: u32) -> Result<Cell, Refusal>
    ensures { cell_reply result ≡ (step (Calls.cell station element slot) store.now).answer }
{
    let index = locate(store, station)?; // 6 before 12
    crate::reading::give_cell(store, index, element, slot)
}

// The day line of a station: refused 9, 6, 11.
pub fn day(store: &[u8], station: u32) -> Result<DayLine, Refusal>
    ensures { SaysDay result (step (Calls.day station) store.now).answer }
{
    let index = locate(store, station)?;
    crate::reading::give_day(store, index)
}
