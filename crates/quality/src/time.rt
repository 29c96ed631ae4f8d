// The time and fill steps on a cell x: a value between its neighbours in time, a before it and b after it, which are the rule's own three.
// So is `mends`: whether the element is mended, as the temperature alone is.
ghost use Rattle.std.specs.Prelude.{◌≡◌, ◌≤◌, nat_abs, neg_ℤ};
ghost use Rattle.quality.specs.Steps.{spike_cell, time_cell, fill_cell};

use crate::column::Cell;
use crate::value::{far, middle, near};

// The negative of x.
fn negative(x: i16) -> i16
    requires { nat_abs x ≤ 32767 }
    ensures { result ≡ neg_ℤ x }
{
    -x
}

// A value x that differs from both neighbours: its negative where that is near both and the element mends, else discarded.
#[tactic(auto, unfolding(crate::specs::Steps::spike_cell))]
fn mended(mends: bool, a: Cell, x: Cell, b: Cell) -> Cell
    requires { nat_abs x.value ≤ 32767 }
    ensures { result ≡ spike_cell mends a x b }
{
    let n = negative(x.value);
    let fits = mends & near(n, a.value) & near(n, b.value);
    if fits {
        return Cell {
            state: 2,
            flag: 3,
            value: n,
        };
    }
    Cell::discarded(3)
}

// The value x between its neighbours a and b in time: mended, discarded or kept.
#[tactic(auto, unfolding(crate::specs::Steps::time_cell))]
pub fn time_cell(mends: bool, a: Cell, x: Cell, b: Cell) -> Cell
    requires { nat_abs x.value ≤ 32767 }
    ensures { result ≡ time_cell mends a x b }
{
    let untested = a.passed_over() | x.passed_over() | b.passed_over();
    if untested {
        return x;
    }
    let odd = far(x.value, a.value) & far(x.value, b.value);
    if odd {
        return mended(mends, a, x, b);
    }
    x
}

// The missing x between its neighbours a and b in time: filled by their mean.
#[tactic(auto, unfolding(crate::specs::Steps::fill_cell))]
pub fn fill_cell(a: Cell, x: Cell, b: Cell) -> Cell
    ensures { result ≡ fill_cell a x b }
{
    let gap = x.is_missing() & !a.passed_over() & !b.passed_over();
    if gap {
        return Cell {
            state: 3,
            flag: x.flag,
            value: middle(a.value, b.value),
        };
    }
    x
}
