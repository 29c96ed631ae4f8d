// Settling one station in portions, begin and the four steps: its own part of the store is lent as `&mut store[a..b]`, the form that document
// 01 names, to `block`, and the settled number beside it is `engine_answers::numbers`' matter. Why the store and an index are two parameters says
// `engine_answers`, and why a part is lent as bytes `store_block::block::as_block`.
ghost use Rattle.std.specs.Prelude.{◌≡◌};
ghost use Rattle.store_layout.specs.Model.{station_at};
ghost use Rattle.store_layout.specs.Layout.{decode, encode};
ghost use Rattle.store_layout.specs.Updates.{with_station};
ghost use Rattle.engine_answers.specs.Good.{StationAt};
ghost use Rattle.engine_answers.specs.Replies as replies;
ghost use Rattle.engine_answers.specs.Replies.{Did};
ghost use Rattle.rules.specs.Calls.{stepping};
ghost use Rattle.rules.specs.Rules.{begun_station, portion, rule};
ghost use Rattle.rules.specs.Reaction.{date_of};
ghost use Rattle.rules.specs.Step.{after};

use crate::block::{begin_block, step_block};
use engine_answers::numbers::{due, number_after};
use quality::limits::{climate_of, season_of};
use refusals::Refusal;
use store_numbers::at::BLOCK_LENGTH;
use store_numbers::entries::{block_start, date_of, row_of, set_settled, settled_of};

// The station at an index, its settling begun: range is due.
pub fn begin_at(store: &mut [u8], index: usize)
    requires { StationAt store.old index }
    ensures { store.new ≡ encode (with_station index (begun_station (station_at (decode store.old).stations index)) (decode store.old)) }
{
    let a = block_start(store, index);
    let b = a + BLOCK_LENGTH;
    begin_block(&mut store[a..b]);
    set_settled(store, index, 2);
}

// The step that is due at its settled number, on the station at an index.
fn portion_at(store: &mut [u8], index: usize, settled: u16)
    requires station { StationAt store.old index }
    requires settled_value { settled ≡ (station_at (decode store.old).stations index).settled }
    ensures { store.new ≡ encode (with_station index (portion (date_of (decode store.old)) (station_at (decode store.old).stations index)) (decode store.old)) }
{
    let step = due(settled);
    let season = season_of(date_of(store).month);
    let climate = climate_of(row_of(store, index));
    let a = block_start(store, index);
    let b = a + BLOCK_LENGTH;
    step_block(&mut store[a..b], step, climate, season);
    set_settled(store, index, number_after(step, settled));
}

// A step call on the station at an index: refused 14 while no settling is under way.
pub fn step_at(store: &mut [u8], index: usize) -> Result<(), Refusal>
    requires { StationAt store.old index }
    ensures { Did (after (rule (date_of (decode store.old)) stepping (station_at (decode store.old).stations index)) index (decode store.old) store.old) (replies.reply result) store.new }
{
    let settled = settled_of(store, index);
    if settled < 2 {
        return Err(Refusal::NotUnderWay);
    }
    portion_at(store, index, settled);
    Ok(())
}
