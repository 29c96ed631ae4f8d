// A report as the slot gets it where it is filed: the slot's head and its nine raw cells. What R a dry station has is `dry`'s matter.
#![tactic(auto)]

mod dry;

ghost use Rattle.std.specs.Prelude.{◌≡◌};
ghost use Rattle.synop_values.specs.Value as codes;
ghost use Rattle.synop.specs.Contents.{listed};
ghost use Rattle.rules.specs.Rules.{raw_cell, filed_head, filed_cells};

use crate::dry::{filed_duration, filed_rain};
use quality::column::Cell;
use quality::head::SlotHead;
use synop::contents::{Indicators, Values};
use synop_values::codes::Moisture;

// A report's value as a raw cell.
fn raw_cell(v: Option<i16>) -> Cell
    ensures { result ≡ raw_cell (codes.meaning v) }
{
    match v {
        None => Cell::discarded(0),
        Some(value) => Cell {
            state: 1,
            flag: 0,
            value,
        },
    }
}

// What group 2 gave as D's raw cell: a humidity has state 4.
fn raw_moisture(m: Option<Moisture>) -> Cell
    ensures { result ≡ raw_cell (codes.moisture m) }
{
    match m {
        None => raw_cell(None),
        Some(Moisture::DewPoint(x)) => raw_cell(Some(x)),
        Some(Moisture::Humidity(u)) => Cell {
            state: 4,
            flag: 0,
            value: i16::from(u),
        },
    }
}

// What filing a report of a rank in slot k puts there: the slot's head, with the copy of dd that it has.
pub fn slot_head(k: usize, rank: u8, copy: u8, indicators: Indicators) -> SlotHead
    ensures { result ≡ filed_head k rank copy indicators }
{
    SlotHead {
        filed: 1,
        ir: indicators.rain_indicator,
        tr: filed_duration(k, indicators),
        dd: indicators.wind_direction,
        rank,
        copy,
    }
}

// And its nine raw cells, in the elements' order.
pub fn raw_cells(k: usize, indicators: Indicators, v: Values) -> [Cell; 9]
    ensures { result ≡ filed_cells k indicators (listed v) }
{
    [
        raw_cell(v.temperature),
        raw_moisture(v.moisture),
        raw_cell(v.pressure),
        raw_cell(v.wind),
        raw_cell(v.cloud),
        raw_cell(v.visibility),
        raw_cell(filed_rain(k, indicators, v.rain)),
        raw_cell(v.maximum),
        raw_cell(v.minimum),
    ]
}
