// A report put in a slot of a station, where its rank allows it: in the station's own part of the store, lent as `&mut store[a..b]`,
// the form that document 01 names, and the settled number beside it. The slot k is an index below 9. Why the store and an index are two
// parameters says `engine_answers`, and why a part is lent as bytes `store_block::block::as_block`.
ghost use Rattle.std.specs.Prelude.{◌≡◌, ◌<◌, length};
ghost use Rattle.store_layout.specs.Model.{head_of, station_at};
ghost use Rattle.store_layout.specs.Layout.{block_length, decode_block, decode, encode};
ghost use Rattle.store_layout.specs.Updates.{with_slot, with_station};
ghost use Rattle.synop.specs.Contents.{listed};
ghost use Rattle.engine_answers.specs.Good.{StationAt};
ghost use Rattle.engine_answers.specs.Replies.{reply, Did};
ghost use Rattle.rules.specs.Rules.{filed_head, filed_cells, filed, file_at};
ghost use Rattle.rules.specs.Step.{after};

use engine_answers::numbers::reported;
use refusals::Refusal;
use store_block::block::{as_block, head_of, put_slot};
use store_numbers::at::BLOCK_LENGTH;
use synop::contents::{Indicators, Values};

// What is filed of a report: its rank, a number as the store keeps it, its indicators and its values.
#[derive(Clone, Copy)]
pub struct Filing {
    pub rank: u8,
    pub indicators: Indicators,
    pub values: Values,
}

// A slot's head and raw cells replaced; its copy of dd stays, which a settling under way reads.
fn put_report(block: &mut [u8], k: usize, f: Filing)
    requires { (length block.old ≡ block_length) × (k < 9) }
    ensures { decode_block block.new ≡ with_slot k (filed_head k f.rank (head_of (decode_block block.old) k).copy f.indicators) (filed_cells k f.indicators (listed f.values)) (decode_block block.old) }
{
    let block = as_block(block);
    let old = head_of(block, k);
    let h = engine_slot::slot_head(k, f.rank, old.copy, f.indicators);
    put_slot(
        block,
        k,
        h,
        engine_slot::raw_cells(k, f.indicators, f.values),
    );
}

// A report written to slot k of the station at an index, whatever the slot holds. The station is no longer settled.
fn put_filed(store: &mut [u8], index: usize, k: usize, f: Filing)
    requires station { StationAt store.old index }
    requires slot { k < 9 }
    ensures { store.new ≡ encode (with_station index (filed k f.rank f.indicators (listed f.values) (station_at (decode store.old).stations index)) (decode store.old)) }
{
    let settled = store_numbers::entries::settled_of(store, index);
    let a = store_numbers::entries::block_start(store, index);
    let b = a + BLOCK_LENGTH;
    put_report(&mut store[a..b], k, f);
    store_numbers::entries::set_settled(store, index, reported(settled));
}

// A report filed in slot k of the station at an index: a higher rank replaces what the slot holds, a lower one is refused, and so is an equal
// one where the slot is filed.
pub fn file_at(store: &mut [u8], index: usize, k: usize, f: Filing) -> Result<(), Refusal>
    requires station { StationAt store.old index }
    requires slot { k < 9 }
    ensures { Did (after (file_at k f.rank f.indicators (listed f.values) (station_at (decode store.old).stations index)) index (decode store.old) store.old) (reply result) store.new }
{
    let old = head_of(store_numbers::entries::block_of(store, index), k);
    if f.rank < old.rank {
        return Err(Refusal::Rank);
    }
    let filed_already = (old.filed == 1) & (f.rank == old.rank);
    if filed_already {
        return Err(Refusal::Filed);
    }
    put_filed(store, index, k, f);
    Ok(())
}
