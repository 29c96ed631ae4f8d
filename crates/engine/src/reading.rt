// What a settled station answers: a checked cell, its day line. The arguments are the calls' own; why the store and an index are two parameters says
// `engine_answers`.
ghost use Rattle.std.specs.Prelude.{◌≡◌};
ghost use Rattle.store_layout.specs.Model.{station_at};
ghost use Rattle.store_layout.specs.Layout.{decode};
ghost use Rattle.engine_answers.specs.Good.{StationAt};
ghost use Rattle.engine_answers.specs.Replies.{cell_reply, SaysDay};
ghost use Rattle.rules.specs.Rules.{cell_of, day_of};

use daily::DayLine;
use quality::column::Cell;
use refusals::Refusal;
use store_block::block::{heads_of, sheet_of};
use store_numbers::area::{Area, cell_of};
use store_numbers::entries::{block_of, settled_of};

// One checked cell of the station at an index.
pub fn give_cell(store: &[u8], index: usize, element: u32, slot: u32) -> Result<Cell, Refusal>
    requires { StationAt store.now index }
    ensures { cell_reply result ≡ cell_of element slot (station_at (decode store.now).stations index) }
{
    let within = (element <= 8) & (slot <= 8);
    if !within {
        return Err(Refusal::NoCell);
    }
    if settled_of(store, index) != 1 {
        return Err(Refusal::NotSettled);
    }
    let block = block_of(store, index);
    Ok(cell_of(block, Area::Checked, element as usize, slot as usize))
}

// The day line of the station at an index.
pub fn give_day(store: &[u8], index: usize) -> Result<DayLine, Refusal>
    requires { StationAt store.now index }
    ensures { SaysDay result (day_of (station_at (decode store.now).stations index)) }
{
    if settled_of(store, index) != 1 {
        return Err(Refusal::NotSettled);
    }
    let block = block_of(store, index);
    let checked = sheet_of(block, Area::Checked);
    let heads = heads_of(block);
    Ok(daily_line::day_line(checked, heads))
}
