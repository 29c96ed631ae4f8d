// The range step.
ghost use Rattle.std.specs.Prelude.{◌≡◌};
ghost use Rattle.quality.specs.Steps.{range_cell};

use crate::column::Cell;
use crate::limits::Limits;

// One cell against the limits.
#[tactic(auto, unfolding(crate::specs::Steps::range_cell))]
pub fn range_cell(l: Limits, d: Cell) -> Cell
    ensures { result ≡ range_cell l d }
{
    if d.passed_over() {
        return d;
    }
    let out = (d.value < l.min2) | (l.max2 < d.value);
    if out {
        return Cell::discarded(1);
    }
    let doubtful = (d.value < l.min1) | (l.max1 < d.value);
    if doubtful {
        return d.with_flag(4);
    }
    d
}
