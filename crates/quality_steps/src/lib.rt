// The four steps on a station's nine columns, in the elements' order T, D, P, W, C, V, R, X, M. Each step reads the columns that the step
// before left and changes its own copy of them in place: columns made anew by `from_fn` would stand several times on the stack.
#![tactic(auto)]

ghost use Rattle.std.specs.Prelude.{◌≡◌};
ghost use Rattle.quality.specs.Coded.{sheet};
ghost use Rattle.quality.specs.Limits.{row_of, is_warm};
ghost use Rattle.quality.specs.Settled.{range, internal, time, fill, one_step, settled};
ghost use Rattle.quality.specs.Valid.{ValidSheet};

use quality::column::Column;
use quality::internal::maximum_below_minimum;
use quality::limits::{Climate, Season};
use quality::rows::limits_for;
use quality::step::Step;
use quality_columns::{
    dew_column, fill_column, range_column, suspect_at, time_column, wind_column,
};

// 1. Range: every element's column against its limits.
pub fn range_all(climate: Climate, season: Season, s: [Column; 9]) -> [Column; 9]
    ensures { sheet result ≡ range (row_of climate) (is_warm season) (sheet s) }
{
    let mut ranged = s;
    for (e, column) in ranged.iter_mut().enumerate() {
        *column = range_column(limits_for(e, climate, season), *column);
    }
    ranged
}

// 2. Internal: dew points beside temperatures, wind speeds beside each slot's dd, the maximum of the day beside the minimum of the night.
pub fn internal_all(dd: [u8; 9], s: [Column; 9]) -> [Column; 9]
    ensures { sheet result ≡ internal dd (sheet s) }
{
    let [t, d, _, w, _, _, _, x, m] = s;
    let mut r = s;
    r[1] = dew_column(t, d);
    r[3] = wind_column(dd, w);
    if maximum_below_minimum(x.at(4), m.at(0)) {
        r[7] = suspect_at(x, 4);
        r[8] = suspect_at(m, 0);
        return r;
    }
    r
}

// 3. Time: T, D and P, each value beside its neighbours in time.
pub fn time_all(s: [Column; 9]) -> [Column; 9]
    requires { ValidSheet (sheet s) }
    ensures { sheet result ≡ time (sheet s) }
{
    let mut timed = s;
    for (e, column) in timed.iter_mut().enumerate() {
        if e <= 2 {
            *column = time_column(e == 0, *column);
        }
    }
    timed
}

// 4. Fill: T, D, P and W, what is missing between two neighbours in time.
pub fn fill_all(s: [Column; 9]) -> [Column; 9]
    ensures { sheet result ≡ fill (sheet s) }
{
    let mut filled = s;
    for (e, column) in filled.iter_mut().enumerate() {
        if e <= 3 {
            *column = fill_column(*column);
        }
    }
    filled
}

// One of the four, on the columns of a station of that climate in that season. The step is data, which a station's settled number gives, so
// a match says which function it is.
pub fn one_step(
    step: Step,
    climate: Climate,
    season: Season,
    dd: [u8; 9],
    s: [Column; 9],
) -> [Column; 9]
    requires { ValidSheet (sheet s) }
    ensures { sheet result ≡ one_step step (row_of climate) (is_warm season) dd (sheet s) }
{
    match step {
        Step::Range => range_all(climate, season, s),
        Step::Internal => internal_all(dd, s),
        Step::Time => time_all(s),
        Step::Fill => fill_all(s),
    }
}

// The checked columns of a station of that climate in that season, from each slot's dd and the raw columns.
pub fn settle(climate: Climate, season: Season, dd: [u8; 9], raw: [Column; 9]) -> [Column; 9]
    requires { ValidSheet (sheet raw) }
    ensures { sheet result ≡ settled (row_of climate) (is_warm season) dd (sheet raw) }
{
    let ranged = range_all(climate, season, raw);
    let consistent = internal_all(dd, ranged);
    fill_all(time_all(consistent))
}
