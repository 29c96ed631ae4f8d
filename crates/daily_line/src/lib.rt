// The day line of one station, from its nine checked columns and its slot heads: document 01, "The day line".
#![tactic(auto)]

mod means;
mod rain;
mod vapours;

ghost use Rattle.quality.specs.Coded.{sheet};
ghost use Rattle.quality.specs.Valid.{ValidSheet};
ghost use Rattle.daily.specs.Coded.{Says};
ghost use Rattle.daily.specs.Line.{day_line};

use crate::means::mean;
use crate::rain::rain_total;
use crate::vapours::vapour_column;
use daily::DayLine;
use daily::counts::count;
use daily::extremes::{coldest, warmest};
use quality::column::Column;
use quality::head::SlotHead;

// The day line from the checked columns, in the elements' order T, D, P, W, C, V, R, X, M, and the slot heads.
pub fn day_line(checked: [Column; 9], heads: [SlotHead; 9]) -> DayLine
    requires { ValidSheet (sheet checked) }
    ensures { Says result (day_line heads (sheet checked)) }
{
    let [t, d, p, w, c, _, r, _, _] = checked;
    DayLine {
        temperature: mean(t),
        dew_point: mean(d),
        pressure: mean(p),
        wind: mean(w),
        cloud: mean(c),
        vapour: mean(vapour_column(t, d)),
        rain: rain_total(heads, r),
        warmest: warmest(t),
        coldest: coldest(t),
        read: count(&checked, 1),
        corrected: count(&checked, 2),
        filled: count(&checked, 3),
        missing: count(&checked, 0),
    }
}
