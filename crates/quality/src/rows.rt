// The limits of the range step: a constant table of limit rows by element, climate row and season, the form that document 01 names. The rows stand one
// behind the other, so that one test goes over all 36.
ghost use Rattle.std.specs.Prelude.{◌≡◌, map, ◌<◌};
ghost use Rattle.laws.specs.Table.{table};
ghost use Rattle.quality.specs.Limits.{limits, row_of, is_warm};
ghost use Rattle.quality.specs.Rows.{of_row, row_limits};

use crate::limits::{Climate, Limits, Season};

// min2, min1, max1, max2, element by element in the order T, D, P, W, C, V, R, X, M; of each lowland cold, lowland warm, hill cold,
// hill warm. C and V have no limits: the least and the largest value of 16 bits.
const ROWS: [[i16; 4]; 36] = [
    [-400, -250, 250, 350], // T lowland cold
    [-150, -50, 380, 480], // T lowland warm
    [-480, -320, 200, 300], // T hill cold
    [-220, -120, 320, 420], // T hill warm
    [-400, -250, 250, 320], // D lowland cold
    [-150, -50, 250, 320], // D lowland warm
    [-480, -320, 250, 320], // D hill cold
    [-220, -120, 250, 320], // D hill warm
    [9200, 9500, 10500, 10800], // P lowland cold
    [9200, 9500, 10500, 10800], // P lowland warm
    [9200, 9500, 10500, 10800], // P hill cold
    [9200, 9500, 10500, 10800], // P hill warm
    [0, 0, 400, 750], // W lowland cold
    [0, 0, 400, 750], // W lowland warm
    [0, 0, 400, 750], // W hill cold
    [0, 0, 400, 750], // W hill warm
    [-32768, -32768, 32767, 32767], // C lowland cold
    [-32768, -32768, 32767, 32767], // C lowland warm
    [-32768, -32768, 32767, 32767], // C hill cold
    [-32768, -32768, 32767, 32767], // C hill warm
    [-32768, -32768, 32767, 32767], // V lowland cold
    [-32768, -32768, 32767, 32767], // V lowland warm
    [-32768, -32768, 32767, 32767], // V hill cold
    [-32768, -32768, 32767, 32767], // V hill warm
    [0, 0, 2000, 5000], // R lowland cold
    [0, 0, 2000, 5000], // R lowland warm
    [0, 0, 2000, 5000], // R hill cold
    [0, 0, 2000, 5000], // R hill warm
    [-400, -250, 250, 350], // X lowland cold
    [-150, -50, 380, 480], // X lowland warm
    [-480, -320, 200, 300], // X hill cold
    [-220, -120, 320, 420], // X hill warm
    [-400, -250, 250, 350], // M lowland cold
    [-150, -50, 380, 480], // M lowland warm
    [-480, -320, 200, 300], // M hill cold
    [-220, -120, 320, 420], // M hill warm
];

// The table, whose rows are all tested against the rule at once.
fn rows() -> [[i16; 4]; 36]
    ensures { map of_row result ≡ table 36 row_limits }
{
    ROWS
}

// A row of the table.
fn limits_row(at: usize) -> Limits
    requires { at < 36 }
    ensures { result ≡ row_limits at }
{
    let [min2, min1, max1, max2] = rows()[at];
    Limits {
        min2,
        min1,
        max1,
        max2,
    }
}

// The limits of an element in a climate and season. The element is 0 to 8, as an index into the table is below its length.
pub fn limits_for(element: usize, climate: Climate, season: Season) -> Limits
    requires { element < 9 }
    ensures { result ≡ limits element (row_of climate) (is_warm season) }
{
    limits_row(element * 4 + climate as usize * 2 + season as usize)
}
