// Settling one station, at once (in portions: `portions`): on its own part of the store, lent as `&mut store[a..b]`, the form that document 01
// names, and on the settled number beside it. Why the store and an index are two parameters says `engine_answers`, and why a part is lent as bytes
// `store_block::block::as_block`.
#![tactic(auto)]

mod block;
pub mod portions;

ghost use Rattle.std.specs.Prelude.{◌≡◌, length};
ghost use Rattle.store_layout.specs.Model.{station_at};
ghost use Rattle.store_layout.specs.Layout.{block_length, decode_block, decode, encode};
ghost use Rattle.store_layout.specs.Updates.{with_checked, with_copies, with_station};
ghost use Rattle.quality.specs.Limits.{row_of, is_warm};
ghost use Rattle.quality.specs.Settled.{settled};
ghost use Rattle.quality.specs.Valid.{ValidSheet};
ghost use Rattle.engine_answers.specs.Good.{StationAt};
ghost use Rattle.rules.specs.Rules.{directions, settled_station};
ghost use Rattle.rules.specs.Reaction.{date_of};

use quality::limits::{Climate, Season, climate_of, season_of};
use store_block::block::{Copies, Dd, as_block, directions, put_copies, put_sheet, sheet_of};
use store_numbers::area::Area;
use store_numbers::at::BLOCK_LENGTH;
use store_numbers::entries::{block_start, date_of, row_of, set_settled};

// The checked cells of a block from its raw ones. A settling under way is dropped: its copies of dd are cleared.
fn settle_block(block: &mut [u8], climate: Climate, season: Season)
    requires { (length block.old ≡ block_length) × ValidSheet (decode_block block.old).raw }
    ensures { decode_block block.new ≡ with_copies (λ h. 0) (with_checked (settled (row_of climate) (is_warm season) (directions (decode_block block.old)) (decode_block block.old).raw) (decode_block block.old)) }
{
    let block = as_block(block);
    let raw = sheet_of(block, Area::Raw);
    let dd = directions(block, Dd::Own);
    let checked = quality_steps::settle(climate, season, dd, raw);
    put_sheet(block, checked);
    put_copies(block, Copies::Cleared);
}

// The station at an index, settled.
pub fn settle_at(store: &mut [u8], index: usize)
    requires { StationAt store.old index }
    ensures { store.new ≡ encode (with_station index (settled_station (date_of (decode store.old)) (station_at (decode store.old).stations index)) (decode store.old)) }
{
    let season = season_of(date_of(store).month);
    let climate = climate_of(row_of(store, index));
    let a = block_start(store, index);
    let b = a + BLOCK_LENGTH;
    settle_block(&mut store[a..b], climate, season);
    set_settled(store, index, 1);
}
