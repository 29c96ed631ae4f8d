// What one SYNOP group means: the numbers that its figures give, and by the code tables the values of the elements and what a
// slot's head keeps. Which group is which is found elsewhere. Every group is answered: a character that should be a digit and is
// none counts as `/`.
ghost use Rattle.std.specs.Prelude.{◌≡◌};
ghost use Rattle.synop_values.specs.Value.{meaning, moisture};
ghost use Rattle.synop_values.specs.Digits as digits;
ghost use Rattle.synop_values.specs.OneGroup as group;
ghost use Rattle.synop_values.specs.Indicators as indicators;

use crate::codes::{
    Moisture, cloud_of, direction_of, indicator_of, moisture_of, pressure_of, rain_of,
    temperature_of, visibility_of, wind_of,
};
use synop_text::Characters;

// ---- digits: the number that characters give, or `None` where one of them is no digit, as `/`

// A character 0 to 9 as its number.
pub fn digit(c: u8) -> Option<u32>
    ensures { result ≡ digits.digit c }
{
    match c {
        b'0'..=b'9' => Some((c - b'0') as u32),
        _ => None,
    }
}

// The numbers of two, three and four digits.
#[tactic(auto, using(crate::proofs::Numbers::digit_some), unfolding(crate::specs::Digits::two))]
pub fn two(a: u8, b: u8) -> Option<u32>
    ensures { result ≡ digits.two a b }
{
    Some(10 * digit(a)? + digit(b)?)
}

#[tactic(auto, using(crate::proofs::Numbers::digit_some, crate::proofs::Numbers::two_some), unfolding(crate::specs::Digits::three))]
fn three(a: u8, b: u8, c: u8) -> Option<u32>
    ensures { result ≡ digits.three a b c }
{
    Some(10 * two(a, b)? + digit(c)?)
}

#[tactic(auto, using(crate::proofs::Numbers::digit_some, crate::proofs::Numbers::three_some), unfolding(crate::specs::Digits::four))]
pub fn four(a: u8, b: u8, c: u8, d: u8) -> Option<u32>
    ensures { result ≡ digits.four a b c d }
{
    Some(10 * three(a, b, c)? + digit(d)?)
}

// ---- values of the elements, each from the characters of its group; `None` for a group that was not sent

// T, X and M, from 1sTTT or 2sTTT: tenths of °C.
#[tactic(auto, using(crate::proofs::Numbers::three_some), unfolding(crate::specs::OneGroup::temperature, crate::specs::Elements::temperature))]
pub fn temperature(part: Option<Characters>) -> Option<i16>
    ensures { meaning result ≡ group.temperature part }
{
    let x = part?;
    let n = three(x.c, x.d, x.e)?;
    temperature_of(x.b, n)
}

// D, from 2sTTT: tenths of °C; or a humidity in percent, from 29UUU.
// Not one function with `temperature`, whose digits it shares: a table passed as a closure needs a contract longer than the two bodies.
#[tactic(auto, using(crate::proofs::Numbers::three_some), unfolding(crate::specs::OneGroup::moisture, crate::specs::Elements::moisture))]
pub fn moisture(part: Option<Characters>) -> Option<Moisture>
    ensures { moisture result ≡ group.moisture part }
{
    let x = part?;
    let n = three(x.c, x.d, x.e)?;
    moisture_of(x.b, n)
}

// P, from 4PPPP: tenths of hPa.
#[tactic(auto, using(crate::proofs::Numbers::four_some), unfolding(crate::specs::OneGroup::pressure, crate::specs::Elements::pressure))]
pub fn pressure(part: Option<Characters>) -> Option<i16>
    ensures { meaning result ≡ group.pressure part }
{
    let x = part?;
    let n = four(x.b, x.c, x.d, x.e)?;
    pressure_of(x.b, n)
}

// W, from iw of YYGGiw and ff of Nddff: tenths of m/s.
#[tactic(auto, using(crate::proofs::Numbers::two_some), unfolding(crate::specs::OneGroup::wind_ff, crate::specs::Elements::wind_ff))]
pub fn wind_ff(time: Option<Characters>, wind: Option<Characters>) -> Option<i16>
    ensures { meaning result ≡ group.wind_ff time wind }
{
    let iw = time?.e;
    let x = wind?;
    let k = two(x.d, x.e)?;
    wind_of(iw, k)
}

// W, from iw and fff of 00fff.
#[tactic(auto, using(crate::proofs::Numbers::three_some), unfolding(crate::specs::OneGroup::wind_fff, crate::specs::Elements::wind_fff))]
pub fn wind_fff(time: Option<Characters>, gale: Option<Characters>) -> Option<i16>
    ensures { meaning result ≡ group.wind_fff time gale }
{
    let iw = time?.e;
    let x = gale?;
    let k = three(x.c, x.d, x.e)?;
    wind_of(iw, k)
}

// C, from N of Nddff: eighths.
#[tactic(auto, unfolding(crate::specs::OneGroup::cloud, crate::specs::Elements::cloud))]
pub fn cloud(wind: Option<Characters>) -> Option<i16>
    ensures { meaning result ≡ group.cloud wind }
{
    let n = digit(wind?.a)?;
    cloud_of(n)
}

// V, from VV of iRixhVV: hundreds of metres.
#[tactic(auto, unfolding(crate::specs::OneGroup::visibility, crate::specs::Elements::visibility))]
pub fn visibility(part: Option<Characters>) -> Option<i16>
    ensures { meaning result ≡ group.visibility part }
{
    let x = part?;
    let vv = two(x.d, x.e)?;
    visibility_of(vv)
}

// R, from 6RRRtR: tenths of mm.
#[tactic(auto, using(crate::proofs::Numbers::three_some), unfolding(crate::specs::OneGroup::rain, crate::specs::Elements::rain))]
pub fn rain(part: Option<Characters>) -> Option<i16>
    ensures { meaning result ≡ group.rain part }
{
    let x = part?;
    let rrr = three(x.b, x.c, x.d)?;
    rain_of(rrr)
}

// ---- a slot's head. Where nothing was sent the answer stays a number, iR 5, tR 0 and dd 100: the store keeps these numbers.

#[tactic(auto, using(crate::proofs::Numbers::digit_some), unfolding(crate::specs::Indicators::rain_duration_of))]
fn duration_of(t: u8) -> u8
    ensures { result ≡ indicators.rain_duration_of t }
{
    digit(t).unwrap_or(0) as u8
}

// tR, from 6RRRtR: 0 where it is `/` or R is missing.
#[tactic(auto, unfolding(crate::specs::OneGroup::rain_duration, crate::specs::Indicators::rain_duration, crate::specs::OneGroup::rain))]
pub fn rain_duration(part: Option<Characters>) -> u8
    ensures { result ≡ group.rain_duration part }
{
    if rain(part).is_none() {
        return 0;
    }
    part.map_or(0, |x| duration_of(x.e))
}

// iR, from iRixhVV: 0 to 4, else 5.
#[tactic(auto, unfolding(crate::specs::OneGroup::rain_indicator, crate::specs::Indicators::rain_indicator))]
pub fn rain_indicator(part: Option<Characters>) -> u8
    ensures { result ≡ group.rain_indicator part }
{
    part.and_then(|x| digit(x.a)).map_or(5, indicator_of)
}

// dd, from Nddff: 0 to 36 or 99, else 100.
#[tactic(auto, unfolding(crate::specs::OneGroup::wind_direction, crate::specs::Indicators::wind_direction))]
pub fn wind_direction(wind: Option<Characters>) -> u8
    ensures { result ≡ group.wind_direction wind }
{
    wind.and_then(|x| two(x.b, x.c)).map_or(100, direction_of)
}
