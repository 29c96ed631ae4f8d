// A cell in the store, read and written.
ghost use Rattle.std.specs.Prelude.{◌≡◌, ◌+◌, ◌<◌, ◌≤◌, length};
ghost use Rattle.std.proofs.lemmas.List.Edits.{sets};
ghost use Rattle.store_layout.specs.Layout.{cell_length, word, signed, decode_cell, encode_cell};

use crate::at::{FLAG_IN, VALUE_IN};
use crate::read::word_at;
use crate::write::put_bytes;
use quality::column::Cell;

// A cell's value at a position, in two's complement.
fn value_at(store: &[u8], at: usize) -> i16
    requires { at + 1 < length store.now }
    ensures { result ≡ signed (word store.now at) }
{
    word_at(store, at).cast_signed()
}

// The cell at a position.
#[tactic(auto, unfolding(store_layout::specs::Layout::decode_cell))]
pub fn cell_at(store: &[u8], at: usize) -> Cell
    requires { at + cell_length ≤ length store.now }
    ensures { result ≡ decode_cell store.now at }
{
    Cell {
        state: store[at],
        flag: store[at + FLAG_IN],
        value: value_at(store, at + VALUE_IN),
    }
}

// The four bytes of a cell.
#[tactic(auto, unfolding(store_layout::specs::Layout::encode_cell))]
fn bytes_of(d: Cell) -> [u8; 4]
    ensures { result ≡ encode_cell d }
{
    let [high, low] = d.value.to_be_bytes();
    [d.state, d.flag, high, low]
}

// Another cell there.
#[tactic(auto, unfolding(store_layout::specs::Layout::encode_cell))]
pub fn put_cell(store: &mut [u8], at: usize, d: Cell)
    requires { at + cell_length ≤ length store.old }
    ensures { store.new ≡ sets store.old at (encode_cell d) }
{
    put_bytes(store, at, &bytes_of(d));
}
