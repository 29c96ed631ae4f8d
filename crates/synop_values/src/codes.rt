// The code tables: what a number that stands in a SYNOP group means as the value of an element, or in a slot's head. Which digits
// give the number is the matter of `figures`.
ghost use Rattle.std.specs.Prelude.{◌≡◌, ◌<◌};
ghost use Rattle.synop_values.specs.Value.{meaning, moisture};
ghost use Rattle.synop_values.specs.Tables as tables;

// What group 2 of section 1 gives, where it gives anything: a dew point or a humidity in percent (1 to 100).
#[derive(Clone, Copy)]
pub enum Moisture {
    DewPoint(i16),
    Humidity(u8),
}

// ---- values of the elements, in the element's unit; `None` where one is missing

// T, D, X and M, tenths of °C, from the sign's character and the number.
#[tactic(auto, unfolding(crate::specs::Tables::temperature_of))]
pub fn temperature_of(sign: u8, n: u32) -> Option<i16>
    requires { n < 1000 }
    ensures { meaning result ≡ tables.temperature_of sign n }
{
    match sign {
        b'0' => Some(n as i16),
        b'1' => Some(-(n as i16)),
        _ => None,
    }
}

// A humidity in percent, from UUU of 29UUU.
#[tactic(auto, unfolding(crate::specs::Tables::humidity_of))]
fn humidity_of(uuu: u32) -> Option<Moisture>
    ensures { moisture result ≡ tables.humidity_of uuu }
{
    match uuu {
        1..=100 => Some(Moisture::Humidity(uuu as u8)),
        _ => None,
    }
}

// D or a humidity, from the sign's character, which is 9 before a humidity, and the number.
#[tactic(auto, unfolding(crate::specs::Tables::moisture_of))]
pub fn moisture_of(sign: u8, n: u32) -> Option<Moisture>
    requires { n < 1000 }
    ensures { moisture result ≡ tables.moisture_of sign n }
{
    if sign == b'9' {
        return humidity_of(n);
    }
    let dew_point = temperature_of(sign, n)?;
    Some(Moisture::DewPoint(dew_point))
}

// P, tenths of hPa, from the first character of PPPP and its number.
#[tactic(auto, unfolding(crate::specs::Tables::pressure_of))]
pub fn pressure_of(first: u8, n: u32) -> Option<i16>
    requires { n < 10000 }
    ensures { meaning result ≡ tables.pressure_of first n }
{
    match first {
        b'0' => Some((10000 + n) as i16),
        b'9' => Some(n as i16),
        _ => None,
    }
}

// W, tenths of m/s, from iw and the number that ff or fff gives.
#[tactic(auto, unfolding(crate::specs::Tables::wind_of))]
pub fn wind_of(iw: u8, k: u32) -> Option<i16>
    requires { k < 1000 }
    ensures { meaning result ≡ tables.wind_of iw k }
{
    match iw {
        b'0' | b'1' => Some((10 * k) as i16),
        b'3' | b'4' => Some(((463 * k + 45) / 90) as i16),
        _ => None,
    }
}

// C, eighths, from N.
#[tactic(auto, unfolding(crate::specs::Tables::cloud_of))]
pub fn cloud_of(n: u32) -> Option<i16>
    ensures { meaning result ≡ tables.cloud_of n }
{
    match n {
        0..=8 => Some(n as i16),
        _ => None,
    }
}

// V, hundreds of metres, from VV. A match over ranges of VV is the form that document 01 names for this place.
#[tactic(auto, unfolding(crate::specs::Tables::visibility_of))]
pub fn visibility_of(vv: u32) -> Option<i16>
    ensures { meaning result ≡ tables.visibility_of vv }
{
    match vv {
        0..=50 => Some(vv as i16),
        51..=55 => None,
        56..=80 => Some((10 * (vv - 50)) as i16),
        81..=88 => Some((300 + 50 * (vv - 80)) as i16),
        89 => Some(700),
        // 90 to 99
        _ => None,
    }
}

// R, tenths of mm, from RRR.
#[tactic(auto, unfolding(crate::specs::Tables::rain_of))]
pub fn rain_of(rrr: u32) -> Option<i16>
    requires { rrr < 1000 }
    ensures { meaning result ≡ tables.rain_of rrr }
{
    match rrr {
        0 => None,
        1..=989 => Some((10 * rrr) as i16),
        990 => Some(0),
        // 991 to 999
        _ => Some((rrr - 990) as i16),
    }
}

// ---- a slot's head

// iR: 0 to 4, else 5.
#[tactic(auto, unfolding(crate::specs::Tables::rain_indicator_of))]
pub fn indicator_of(n: u32) -> u8
    ensures { result ≡ tables.rain_indicator_of n }
{
    match n {
        0..=4 => n as u8,
        _ => 5,
    }
}

// dd: 0 to 36 or 99, else 100.
#[tactic(auto, unfolding(crate::specs::Tables::wind_direction_of))]
pub fn direction_of(n: u32) -> u8
    ensures { result ≡ tables.wind_direction_of n }
{
    match n {
        0..=36 => n as u8,
        99 => 99,
        _ => 100,
    }
}
