// Whether the numbers of a slot head, of a cell and of a station's entry may stand in a store, by document 01's "The store".
#![tactic(auto)]

ghost use Rattle.std.specs.Prelude.{◌≡◌, ◌&&◌, ltb};
ghost use Rattle.quality.specs.Valid.{is_cell};
ghost use Rattle.store_layout.specs.Valid.{is_direction, is_entry, is_head};

use quality::column::Cell;
use quality::head::{HIGHEST_RANK, SlotHead};

// D's number among the elements.
const DEW_POINT: usize = 1;

// The largest state, but a humidity's, and the largest flag that may stand in a cell of a sheet.
#[derive(Clone, Copy)]
pub struct Limits {
    pub states: u8,
    pub flags: u8,
}

// Whether a number is a wind direction, calm and missing among them.
fn is_direction(dd: u8) -> bool
    ensures { result ≡ is_direction dd }
{
    matches!(dd, 0..=36 | 99 | 100)
}

// A slot head of a station with that settled number. From 2 on a settling is under way and the copy is a dd, below it is 0.
#[tactic(auto, unfolding(store_layout::specs::Valid::is_head))]
pub fn is_head(settled: u16, h: SlotHead) -> bool
    ensures { result ≡ is_head settled h }
{
    let free = (h.filed == 1) | (h.rank == 0);
    let first = (h.filed <= 1)
        & (h.ir <= 5)
        & (h.tr <= 9)
        & is_direction(h.dd)
        & (h.rank as u32 <= HIGHEST_RANK)
        & free;
    if settled < 2 {
        return first & (h.copy == 0);
    }
    first & is_direction(h.copy)
}

// A cell of an element, within the limits of its sheet. A humidity stands in D's cells alone.
#[tactic(auto, unfolding(quality::specs::Valid::is_cell))]
pub fn is_cell(element: usize, cell: Cell, limits: Limits) -> bool
    ensures { result ≡ is_cell limits.states limits.flags element cell }
{
    let Cell { state, flag, value } = cell;
    let humidity = (element == DEW_POINT) & (state == 4) & ((1 <= value) & (value <= 100));
    let stands = (state <= limits.states) | humidity;
    if !stands {
        return false;
    }
    if limits.flags < flag {
        return false;
    }
    if 32767 < value.unsigned_abs() {
        return false;
    }
    (state != 0) | (value == 0)
}

// A station's entry, with a number above the one before.
#[tactic(auto, unfolding(store_layout::specs::Valid::is_entry))]
pub fn is_entry(last: u32, number: u32, row: u16, settled: u16) -> bool
    ensures { result ≡ (ltb last number && is_entry number row settled) }
{
    (last < number) & ((1 <= number) & (number <= 99999) & (row <= 1) & (settled <= 9))
}
