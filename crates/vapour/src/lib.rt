// The vapour pressure at a dew point in tenths of a degree, looked up in a table (`table`). What the table looks like is known here
// alone. `generator` computes the table's numbers.
#![tactic(auto)]

pub mod generator;
mod recurrence;
mod table;

ghost use Rattle.std.specs.Prelude.{◌≡◌, map};
ghost use Rattle.vapour.specs.Vapour.{pressure};

pub use table::PLACES;
use table::Table;

// Why a slice is not filled with the table: this length is needed.
#[derive(Clone, Copy)]
pub struct LengthNeeded(pub u32);

// The vapour pressures at nine dew points, or temperatures in their place.
pub fn pressures(dew_points: [i16; 9]) -> [Option<u16>; 9]
    ensures { result ≡ map pressure dew_points }
{
    let table = Table::new();
    dew_points.map(|dew_point| table.pressure(dew_point))
}
