// The cells of a station's block: where each lies, one read, one written. An element and a slot are indices of arrays of nine, and are required
// below 9 here and in `store_block`, as an index is below an array's length. With the area they name a cell: a struct of the three would be made
// at each call and taken apart in it.
ghost use Rattle.std.specs.Prelude.{◌≡◌, ◌+◌, ◌<◌, ◌≤◌};
ghost use Rattle.quality.specs.Cell.{slot};
ghost use Rattle.quality.specs.Elements.{column};
ghost use Rattle.store_layout.specs.Layout.{block_length, cell_length, checked_from, decode_block};
ghost use Rattle.store_numbers.specs.Areas.{sheet_in, area_from, cell_at, with_cell};

use crate::at::{BLOCK_LENGTH, CELL_LENGTH, CHECKED_FROM, RAW_FROM};
use crate::cell;
use quality::column::Cell;

// A block's two sheets of cells.
#[derive(Clone, Copy)]
pub enum Area {
    Raw,
    Checked,
}

// Where a sheet begins in its block: the one place that tells the two apart.
fn from(area: Area) -> usize
    ensures { (result ≡ area_from area) × (result ≤ checked_from) }
{
    match area {
        Area::Raw => RAW_FROM,
        Area::Checked => CHECKED_FROM,
    }
}

// Where the cell of an element at slot k lies.
pub fn cell_at(area: Area, element: usize, k: usize) -> usize
    requires { (element < 9) × (k < 9) }
    ensures { (result ≡ cell_at area element k) × (result + cell_length ≤ block_length) }
{
    from(area) + CELL_LENGTH * (9 * k + element)
}

// The cell of an element at slot k.
#[tactic(auto, using(crate::proofs::Sheets::cell_read))]
pub fn cell_of(block: &[u8; BLOCK_LENGTH], area: Area, element: usize, k: usize) -> Cell
    requires { (element < 9) × (k < 9) }
    ensures { result ≡ slot (column (sheet_in area (decode_block block.now)) element) k }
{
    cell::cell_at(block, cell_at(area, element, k))
}

// Another cell of an element at slot k.
#[tactic(auto, using(crate::proofs::BlockWrites::cell_put))]
pub fn put_cell(block: &mut [u8; BLOCK_LENGTH], area: Area, element: usize, k: usize, d: Cell)
    requires { (element < 9) × (k < 9) }
    ensures { decode_block block.new ≡ with_cell area element k d (decode_block block.old) }
{
    cell::put_cell(block, cell_at(area, element, k), d);
}
