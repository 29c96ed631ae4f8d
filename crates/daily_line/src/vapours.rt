// The column of vapour pressures, in hundredths of hPa, from those of temperatures and dew points.
ghost use Rattle.std.specs.Prelude.{◌≡◌, ◌≤◌};
ghost use Rattle.quality.specs.Coded.{cells};
ghost use Rattle.quality.specs.Elements.{dew_point};
ghost use Rattle.quality.specs.Valid.{ValidCell, ValidColumn};
ghost use Rattle.daily.specs.Means as means;
ghost use Rattle.vapour.specs.Vapour.{pressure};

use quality::column::{Cell, Column};

// The cell at whose value the table is read: D's, or T's where D's is a humidity.
fn basis(t: Cell, d: Cell) -> Cell
    ensures { result ≡ means.basis t d }
{
    if d.is_humidity() {
        return t;
    }
    d
}

// What D's cell makes of the table's entry e: where it is a humidity of UUU percent, floor((e·UUU + 50) / 100), else e itself.
fn share(d: Cell, e: u16) -> u16
    requires { ValidCell dew_point d × (e ≤ 32767) }
    ensures { (result ≡ means.share d e) × (result ≤ 32767) }
{
    if d.is_humidity() {
        let percent = u32::from(d.value.unsigned_abs());
        return ((u32::from(e) * percent + 50) / 100) as u16;
    }
    e
}

// The vapour pressure of a slot with D's cell d, where p is that at b's value, with b's state.
fn vapour_cell(b: Cell, d: Cell, p: Option<u16>) -> Cell
    requires { ValidCell dew_point d × (p ≡ pressure b.value) }
    ensures { result ≡ means.vapour_at b d }
{
    if b.is_missing() {
        return Cell::discarded(0);
    }
    match p {
        Some(e) => Cell {
            value: share(d, e) as i16,
            ..b
        },
        None => Cell::discarded(0),
    }
}

pub fn vapour_column(t: Column, d: Column) -> Column
    requires { ValidColumn dew_point (cells d) }
    ensures { cells result ≡ means.vapour_column (cells t) (cells d) }
{
    let bases: [Cell; 9] = std::array::from_fn(|k| basis(t.at(k), d.at(k)));
    let pressures = vapour::pressures(bases.map(|b| b.value));
    Column::of(std::array::from_fn(|k| vapour_cell(bases[k], d.at(k), pressures[k])))
}
