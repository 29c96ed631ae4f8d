// The limits of the range step, and what they go by. Their table is `rows`.
ghost use Rattle.std.specs.Prelude.{◌≡◌, ◌<◌};
ghost use Rattle.quality.specs.Limits.{row_of, is_warm, warm};

#[derive(Clone, Copy)]
pub struct Limits {
    pub min2: i16,
    pub min1: i16,
    pub max1: i16,
    pub max2: i16,
}

// A station's climate row.
#[derive(Clone, Copy)]
pub enum Climate {
    Lowland,
    Hill,
}

// A climate row as the store keeps it: 0 lowland, 1 hill.
pub fn climate_of(row: u16) -> Climate
    requires { row < 2 }
    ensures { row_of result ≡ row }
{
    match row {
        0 => Climate::Lowland,
        _ => Climate::Hill,
    }
}

#[derive(Clone, Copy)]
pub enum Season {
    Cold,
    Warm,
}

// Warm is month 4 to 9.
pub fn season_of(month: u32) -> Season
    ensures { is_warm result ≡ warm month }
{
    if (4 <= month) & (month <= 9) {
        return Season::Warm;
    }
    Season::Cold
}
