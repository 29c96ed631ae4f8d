// What the groups of a report hold: who reports and for when, the indicators and the nine values. Which group is which is the
// matter of `synop_parts`.
ghost use Rattle.std.specs.Prelude.{◌≡◌};
ghost use Rattle.synop_values.specs.Value.{meaning};
ghost use Rattle.synop.specs.Contents as contents;

use synop_parts::{Part, Parts};
use synop_text::Characters;
use synop_values::codes::Moisture;
use synop_values::figures::{digit, four, two};

// Who reports, and for when: IIiii, YY and GG.
#[derive(Clone, Copy)]
pub struct Identification {
    pub station: u32,
    pub day: u8,
    pub hour: u8,
}

// What a report gives for the head of its slot: iR, whether a group 6 was sent, tR and dd.
// What was not sent stays a number, iR 5, tR 0 and dd 100: these are the store's and the paper's, with a meaning and a place of their own.
// `rain_sent` is no `Option` around tR, which would be taken apart at once: S-5 asks whether it was sent alone, the store keeps tR alone.
#[derive(Clone, Copy)]
pub struct Indicators {
    pub rain_indicator: u8,
    pub rain_sent: bool,
    pub rain_duration: u8,
    pub wind_direction: u8,
}

// The nine elements, in the order of the store; the second is D, or a humidity in its place.
#[derive(Clone, Copy)]
pub struct Values {
    pub temperature: Option<i16>,
    pub moisture: Option<Moisture>,
    pub pressure: Option<i16>,
    pub wind: Option<i16>,
    pub cloud: Option<i16>,
    pub visibility: Option<i16>,
    pub rain: Option<i16>,
    pub maximum: Option<i16>,
    pub minimum: Option<i16>,
}

// A number of two digits.
#[tactic(auto, using(crate::proofs::Numbers::two_number), unfolding(crate::specs::Contents::two_of))]
fn two_of(a: u8, b: u8) -> u8
    ensures { result ≡ contents.two_of a b }
{
    two(a, b).unwrap_or(0) as u8
}

// IIiii.
#[tactic(auto, using(crate::proofs::Numbers::four_number, crate::proofs::Numbers::digit_number), unfolding(crate::specs::Contents::station_of))]
fn station_of(x: Characters) -> u32
    ensures { result ≡ contents.station_of x }
{
    10 * four(x.a, x.b, x.c, x.d).unwrap_or(0) + digit(x.e).unwrap_or(0)
}

#[tactic(auto, unfolding(crate::specs::Contents::identification_of))]
pub fn identification_of(time: Option<Characters>, station: Option<Characters>) -> Identification
    ensures { result ≡ contents.identification_of time station }
{
    Identification {
        station: station.map_or(0, station_of),
        day: time.map_or(0, |x| two_of(x.a, x.b)),
        hour: time.map_or(0, |x| two_of(x.c, x.d)),
    }
}

#[tactic(auto, unfolding(crate::specs::Contents::indicators_of))]
pub fn indicators_of(
    visibility: Option<Characters>,
    wind: Option<Characters>,
    rain: Option<Characters>,
) -> Indicators
    ensures { result ≡ contents.indicators_of visibility wind rain }
{
    Indicators {
        rain_indicator: synop_values::figures::rain_indicator(visibility),
        rain_sent: rain.is_some(),
        rain_duration: synop_values::figures::rain_duration(rain),
        wind_direction: synop_values::figures::wind_direction(wind),
    }
}

// W, from 00fff where it stands.
#[tactic(auto, unfolding(crate::specs::Contents::wind_of))]
fn wind_of(
    time: Option<Characters>,
    wind: Option<Characters>,
    gale: Option<Characters>,
) -> Option<i16>
    ensures { meaning result ≡ contents.wind_of time wind gale }
{
    if gale.is_some() {
        return synop_values::figures::wind_fff(time, gale);
    }
    synop_values::figures::wind_ff(time, wind)
}

// The nine elements of a report's parts, where rain is read from the group `rain`.
#[tactic(auto, unfolding(crate::specs::Contents::values_of))]
pub fn values_of(kept: &Parts, rain: Option<Characters>) -> Values
    ensures { contents.listed result ≡ contents.values_of kept.now.groups rain }
{
    let wind = kept.of(Part::Wind);
    Values {
        temperature: synop_values::figures::temperature(kept.of(Part::Temperature)),
        moisture: synop_values::figures::moisture(kept.of(Part::DewPoint)),
        pressure: synop_values::figures::pressure(kept.of(Part::Pressure)),
        wind: wind_of(kept.of(Part::Time), wind, kept.of(Part::Gale)),
        cloud: synop_values::figures::cloud(wind),
        visibility: synop_values::figures::visibility(kept.of(Part::Visibility)),
        rain: synop_values::figures::rain(rain),
        maximum: synop_values::figures::temperature(kept.of(Part::Maximum)),
        minimum: synop_values::figures::temperature(kept.of(Part::Minimum)),
    }
}
