// Whether a station's block is sound: its slot heads and cells, by document 01's "The store". Each test takes
// the store and a position in it: of a part cut out for it, each call would have to write the two ends.
ghost use Rattle.std.specs.Prelude.{◌≡◌, ◌+◌, ◌*◌, ◌<◌, ◌≤◌, length};
ghost use Rattle.laws.specs.All.{all};
ghost use Rattle.store_layout.specs.Layout.{block_length, cell_element, head_length, cell_length, sheet_length, raw_from, head_at, word, signed};
ghost use Rattle.store_layout.specs.Sound.{sound_head, sound_cell, sound_block};

use quality::column::Cell;
use store_fields::{Limits, is_cell, is_head};
use store_numbers::at::{
    CELL_LENGTH, CHECKED_FROM, FLAG_IN, HEAD_LENGTH, RAW_FROM, SLOT_LENGTH, VALUE_IN,
};
use store_numbers::head::head_at;

// The limits of a raw cell, state 0 or 1 and no flag, and of a checked one.
const RAW: Limits = Limits {
    states: 1,
    flags: 0,
};

const CHECKED: Limits = Limits {
    states: 3,
    flags: 4,
};

fn is_head_at(store: &[u8], at: usize, settled: u16) -> bool
    requires { at + head_length ≤ length store.now }
    ensures { result ≡ sound_head settled store.now at }
{
    is_head(settled, head_at(store, at))
}

// The nine slot heads from a position on, of a station with that settled number.
fn are_heads(store: &[u8], at: usize, settled: u16) -> bool
    requires { at + raw_from ≤ length store.now }
    ensures { result ≡ all (λ k. sound_head settled store.now (at + head_at k)) 9 }
{
    (0..9).all(|k| is_head_at(store, at + HEAD_LENGTH * k, settled))
}

// A cell's value at a position. By `word_at`, of `from_be_bytes`, the test of a store takes half as long again.
fn value_at(store: &[u8], at: usize) -> i16
    requires { at + 1 < length store.now }
    ensures { result ≡ signed (word store.now at) }
{
    ((store[at] as u32 * 256 + store[at + 1] as u32) as u16).cast_signed()
}

// The cell of an element at a position.
#[tactic(auto, unfolding(store_layout::specs::Layout::decode_cell))]
fn is_cell_at(store: &[u8], at: usize, element: usize, limits: Limits) -> bool
    requires { at + cell_length ≤ length store.now }
    ensures { result ≡ sound_cell limits.states limits.flags element store.now at }
{
    let cell = Cell {
        state: store[at],
        flag: store[at + FLAG_IN],
        value: value_at(store, at + VALUE_IN),
    };
    is_cell(element, cell, limits)
}

// The nine raw or checked cells of a slot from a position on, element by element.
fn are_nine(store: &[u8], at: usize, limits: Limits) -> bool
    requires { at + cell_length * 9 ≤ length store.now }
    ensures { result ≡ all (λ e. sound_cell limits.states limits.flags e store.now (at + cell_length * e)) 9 }
{
    (0..9).all(|e| is_cell_at(store, at + CELL_LENGTH * e, e, limits))
}

// The 81 raw or checked cells from a position on, slot by slot: a loop over nine is unrolled, which one over 81 is not. One expression, as in
// `are_heads`, over another test.
fn are_cells(store: &[u8], at: usize, limits: Limits) -> bool
    requires { at + sheet_length ≤ length store.now }
    ensures { result ≡ all (λ j. sound_cell limits.states limits.flags (cell_element j) store.now (at + cell_length * j)) 81 }
{
    (0..9).all(|k| are_nine(store, at + SLOT_LENGTH * k, limits))
}

// The block that begins at a position, of a station with that settled number: heads, raw cells with state 0 or 1, or a humidity in D's, and
// flag 0, checked cells.
pub fn is_block(store: &[u8], at: usize, settled: u16) -> bool
    requires { at + block_length ≤ length store.now }
    ensures { result ≡ sound_block settled store.now at }
{
    are_heads(store, at, settled)
        & are_cells(store, at + RAW_FROM, RAW)
        & are_cells(store, at + CHECKED_FROM, CHECKED)
}
