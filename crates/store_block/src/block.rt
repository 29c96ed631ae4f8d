// A station's block: its slot heads, and its raw and checked columns, read and written.
ghost use Rattle.std.specs.Prelude.{◌≡◌, ◌<◌, length};
ghost use Rattle.std.specs.Borrow.{sem, Lends, Array, u8 as byte};
ghost use Rattle.quality.specs.Coded.{cells, sheet};
ghost use Rattle.quality.specs.Elements.{column};
ghost use Rattle.store_layout.specs.Model.{head_of};
ghost use Rattle.store_layout.specs.Layout.{block_length, decode_block};
ghost use Rattle.store_layout.specs.Updates.{with_slot, with_checked, with_copies};
ghost use Rattle.store_numbers.specs.Areas.{sheet_in, with_column};
ghost use Rattle.store_block.specs.Coded.{dd_of, directions_of, copy_for};

use quality::column::{Cell, Column};
use quality::head::SlotHead;
use std::array::from_fn;
use store_numbers::area::{Area, cell_of, put_cell};
use store_numbers::at::{BLOCK_LENGTH, COPY_IN, HEAD_LENGTH};
use store_numbers::head::{head_at, put_head};

// A part of the store as a block. What a part was lent for is known only of a part that is passed itself, so the functions that the
// store lends a part to take it as bytes, and call this.
pub fn as_block(part: &mut [u8]) -> &mut [u8; BLOCK_LENGTH]
    requires { length part.old ≡ block_length }
    ensures* writes_back { sem 𝓛 (Lends (Array byte 0) (Array byte 0) part.entry result (λ bytes. bytes)) }
    ensures value { result.now ≡ part.old }
{
    let Some(block) = part.as_mut_array() else {
        unreachable!()
    };
    block
}

// A slot's own dd, or the copy that a settling under way reads.
#[derive(Clone, Copy)]
pub enum Dd {
    Own,
    Copy,
}

// A head's own dd or its copy: the one place that tells the two apart.
fn dd_of(of: Dd, h: SlotHead) -> u8
    ensures { result ≡ dd_of of h }
{
    match of {
        Dd::Own => h.dd,
        Dd::Copy => h.copy,
    }
}

// The copies of dd: taken as a settling begins, cleared as it ends.
#[derive(Clone, Copy)]
pub enum Copies {
    Taken,
    Cleared,
}

// The copy of dd that a head gets: the one place that tells the two apart.
fn copy_for(copies: Copies, h: SlotHead) -> u8
    ensures { result ≡ copy_for copies h }
{
    match copies {
        Copies::Taken => h.dd,
        Copies::Cleared => 0,
    }
}

// The nine cells of an element.
fn column_of(block: &[u8; BLOCK_LENGTH], area: Area, element: usize) -> Column
    requires { element < 9 }
    ensures { cells result ≡ column (sheet_in area (decode_block block.now)) element }
{
    Column::of(from_fn(|k| cell_of(block, area, element, k)))
}

// The nine elements' columns, read in place of nine empty ones: made by `from_fn` they would stand several times on the stack.
pub fn sheet_of(block: &[u8; BLOCK_LENGTH], area: Area) -> [Column; 9]
    ensures { sheet result ≡ sheet_in area (decode_block block.now) }
{
    let empty = Column {
        values: [0; 9],
        states: [0; 9],
        flags: [0; 9],
    };
    let mut columns = [empty; 9];
    for (element, column) in columns.iter_mut().enumerate() {
        *column = column_of(block, area, element);
    }
    columns
}

// The nine slot heads.
pub fn heads_of(block: &[u8; BLOCK_LENGTH]) -> [SlotHead; 9]
    ensures { result ≡ (decode_block block.now).heads }
{
    from_fn(|k| head_at(block, HEAD_LENGTH * k))
}

// dd of each slot, its own or the copy.
pub fn directions(block: &[u8; BLOCK_LENGTH], of: Dd) -> [u8; 9]
    ensures { result ≡ directions_of of (decode_block block.now) }
{
    heads_of(block).map(|h| dd_of(of, h))
}

// The head of slot k.
#[tactic(auto, using(store_layout::proofs::Blocks::head_of_block))]
pub fn head_of(block: &[u8; BLOCK_LENGTH], k: usize) -> SlotHead
    requires { k < 9 }
    ensures { result ≡ head_of (decode_block block.now) k }
{
    head_at(block, HEAD_LENGTH * k)
}

// A report filed in slot k: its head, and the nine elements' raw cells.
pub fn put_slot(block: &mut [u8; BLOCK_LENGTH], k: usize, h: SlotHead, raw: [Cell; 9])
    requires { k < 9 }
    ensures { decode_block block.new ≡ with_slot k h raw (decode_block block.old) }
{
    put_head(block, HEAD_LENGTH * k, h);
    for (e, &d) in raw.iter().enumerate() {
        put_cell(block, Area::Raw, e, k, d);
    }
}

// Another checked column of an element. Over slots, since a column is three arrays and no slice of cells to go over.
fn put_checked(block: &mut [u8; BLOCK_LENGTH], element: usize, c: Column)
    requires { element < 9 }
    ensures { decode_block block.new ≡ with_column Area.Checked element (cells c) (decode_block block.old) }
{
    for k in 0..9 {
        put_cell(block, Area::Checked, element, k, c.at(k));
    }
}

// Another checked sheet: the nine elements' columns.
pub fn put_sheet(block: &mut [u8; BLOCK_LENGTH], columns: [Column; 9])
    ensures { decode_block block.new ≡ with_checked (sheet columns) (decode_block block.old) }
{
    for (e, &c) in columns.iter().enumerate() {
        put_checked(block, e, c);
    }
}

// The nine copies of dd, taken or cleared.
pub fn put_copies(block: &mut [u8; BLOCK_LENGTH], copies: Copies)
    ensures { decode_block block.new ≡ with_copies (copy_for copies) (decode_block block.old) }
{
    let heads = heads_of(block);
    for (k, &h) in heads.iter().enumerate() {
        block[HEAD_LENGTH * k + COPY_IN] = copy_for(copies, h);
    }
}
