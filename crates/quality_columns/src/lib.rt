// The steps of "Settling a station" on one element's column: each makes a new column from the one that the step before left.
#![tactic(auto)]

ghost use Rattle.std.specs.Prelude.{◌≡◌, ◌<◌};
ghost use Rattle.quality.specs.Coded.{cells};
ghost use Rattle.quality.specs.Steps.{range_column, dew_column, wind_column, suspect_at, time_cell, fill_cell, between};
ghost use Rattle.quality.specs.Valid.{Sized};

use quality::column::Column;
use quality::internal::{dew_cell, wind_cell};
use quality::limits::Limits;
use quality::range::range_cell;
use quality::time::{fill_cell, time_cell};
use std::array::from_fn;

// The range step, every cell against the limits.
pub fn range_column(l: Limits, c: Column) -> Column
    ensures { cells result ≡ range_column l (cells c) }
{
    Column::of(from_fn(|k| range_cell(l, c.at(k))))
}

// The internal step on dew points d, beside the temperatures t.
pub fn dew_column(t: Column, d: Column) -> Column
    ensures { cells result ≡ dew_column (cells t) (cells d) }
{
    Column::of(from_fn(|k| dew_cell(t.at(k), d.at(k))))
}

// The internal step on wind speeds w, beside each slot's dd.
pub fn wind_column(dd: [u8; 9], w: Column) -> Column
    ensures { cells result ≡ wind_column dd (cells w) }
{
    Column::of(from_fn(|k| wind_cell(dd[k], w.at(k))))
}

// The column with its cell at slot k suspect; k is below 9, as an index is.
pub fn suspect_at(c: Column, k: usize) -> Column
    requires { k < 9 }
    ensures { cells result ≡ suspect_at k (cells c) }
{
    let mut r = c;
    r.flags[k] = 4;
    r
}

// The time step on a column, slots 1 to 7. `mends`: as in `quality::time`.
pub fn time_column(mends: bool, c: Column) -> Column
    requires { Sized (cells c) }
    ensures { cells result ≡ between (time_cell mends) (cells c) }
{
    let timed = from_fn(|k| match k {
        1..=7 => time_cell(mends, c.at(k - 1), c.at(k), c.at(k + 1)),
        _ => c.at(k),
    });
    Column::of(timed)
}

// The fill step on a column, slots 1 to 7. It is `time_column` over another rule: a rule passed as a closure needs a contract longer than the body.
pub fn fill_column(c: Column) -> Column
    ensures { cells result ≡ between fill_cell (cells c) }
{
    let filled = from_fn(|k| match k {
        1..=7 => fill_cell(c.at(k - 1), c.at(k), c.at(k + 1)),
        _ => c.at(k),
    });
    Column::of(filled)
}
