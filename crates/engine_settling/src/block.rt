// Settling in portions on a station's own part of the store: begin, and one step. Why the part comes as bytes says `store_block::block::as_block`.
ghost use Rattle.std.specs.Prelude.{◌≡◌, length};
ghost use Rattle.store_layout.specs.Layout.{block_length, decode_block};
ghost use Rattle.store_layout.specs.Updates.{with_checked, with_copies};
ghost use Rattle.quality.specs.Limits.{row_of, is_warm};
ghost use Rattle.quality.specs.Settled.{one_step};
ghost use Rattle.quality.specs.Valid.{ValidSheet};
ghost use Rattle.rules.specs.Rules.{copies, cleared};

use quality::limits::{Climate, Season};
use quality::step::Step;
use store_block::block::{Copies, Dd, as_block, directions, put_copies, put_sheet, sheet_of};
use store_numbers::area::Area;

// A settling begun: the raw cells copied to the checked ones, and each slot's dd beside them.
pub fn begin_block(block: &mut [u8])
    requires { length block.old ≡ block_length }
    ensures { decode_block block.new ≡ with_copies (λ h. h.dd) (with_checked (decode_block block.old).raw (decode_block block.old)) }
{
    let block = as_block(block);
    let copied = sheet_of(block, Area::Raw);
    put_sheet(block, copied);
    put_copies(block, Copies::Taken);
}

// One step on the checked cells of a block; internal reads the copies of dd. After fill the copies are cleared.
pub fn step_block(block: &mut [u8], step: Step, climate: Climate, season: Season)
    requires { (length block.old ≡ block_length) × ValidSheet (decode_block block.old).checked }
    ensures { decode_block block.new ≡ cleared step (with_checked (one_step step (row_of climate) (is_warm season) (copies (decode_block block.old)) (decode_block block.old).checked) (decode_block block.old)) }
{
    let block = as_block(block);
    let checked = sheet_of(block, Area::Checked);
    let dd = directions(block, Dd::Copy);
    put_sheet(
        block,
        quality_steps::one_step(step, climate, season, dd, checked),
    );
    if matches!(step, Step::Fill) {
        put_copies(block, Copies::Cleared);
    }
}
