// The internal step: values of one slot against each other, the maximum of the day against the minimum of the night before.
ghost use Rattle.std.specs.Prelude.{◌≡◌};
ghost use Rattle.quality.specs.Steps.{dew_cell, wind_cell};
ghost use Rattle.quality.specs.Steps as Steps;

use crate::column::Cell;

// The dew point d beside the temperature t: discarded where it is above.
#[tactic(auto, unfolding(crate::specs::Steps::dew_cell))]
pub fn dew_cell(t: Cell, d: Cell) -> Cell
    ensures { result ≡ dew_cell t d }
{
    let untested = t.passed_over() | d.passed_over();
    if untested {
        return d;
    }
    if t.value < d.value {
        return Cell::discarded(2);
    }
    d
}

// The wind speed w beside the direction dd: suspect where one says calm and the other does not.
#[tactic(auto, unfolding(crate::specs::Steps::wind_cell))]
pub fn wind_cell(dd: u8, w: Cell) -> Cell
    ensures { result ≡ wind_cell dd w }
{
    if w.passed_over() {
        return w;
    }
    let calm = (dd == 0) & (0 < w.value);
    let blowing = (1 <= dd) & (dd <= 36) & (w.value == 0);
    let doubtful = calm | blowing;
    if doubtful {
        return w.with_flag(4);
    }
    w
}

// The maximum x is below the minimum m.
#[tactic(auto, unfolding(crate::specs::Steps::maximum_below_minimum))]
pub fn maximum_below_minimum(x: Cell, m: Cell) -> bool
    ensures { result ≡ Steps.maximum_below_minimum x m }
{
    !x.passed_over() & !m.passed_over() & (x.value < m.value)
}
