// A day line as arrays of numbers.
ghost use Rattle.std.specs.Prelude.{◌≡◌};
ghost use Rattle.capi.specs.Arrays.{float, kind, present, tenths, slot_number, floats, numbers, Near, Small};

use daily::{DayLine, Mean};

// A mean's float, 0.0 where it is absent.
fn mean_float(mean: Mean) -> f64
    ensures { result ≡ float mean }
{
    match mean {
        Mean::Absent => 0.0,
        Mean::Read(x) | Mean::Mended(x) => x,
    }
}

// A mean's kind: 0 absent, 1 read, 2 mended. Each arm is a line of the table of numbers that C is given.
fn mean_kind(mean: Mean) -> i32
    ensures { result ≡ kind mean }
{
    match mean {
        Mean::Absent => 0,
        Mean::Read(_) => 1,
        Mean::Mended(_) => 2,
    }
}

// Whether there is a rain.
fn rain_present(rain: Option<i32>) -> i32
    ensures { result ≡ present rain }
{
    i32::from(rain.is_some())
}

// The rain, 0 where there is none.
fn rain_tenths(rain: Option<i32>) -> i32
    ensures { result ≡ tenths rain }
{
    rain.unwrap_or(0)
}

// A slot, -1 where it is absent.
fn slot_number(slot: Option<usize>) -> i32
    requires { Near slot }
    ensures { result ≡ slot_number slot }
{
    slot.map_or(-1, |k| k as i32)
}

// The means' floats.
#[tactic(auto, unfolding(crate::specs::Arrays::floats))]
pub fn line_floats(l: DayLine) -> [f64; 6]
    ensures { result ≡ floats l }
{
    [
        mean_float(l.temperature),
        mean_float(l.dew_point),
        mean_float(l.pressure),
        mean_float(l.wind),
        mean_float(l.cloud),
        mean_float(l.vapour),
    ]
}

// All that a day line has but the floats.
#[tactic(auto, unfolding(crate::specs::Arrays::numbers))]
pub fn line_numbers(l: DayLine) -> [i32; 14]
    requires { Small l }
    ensures { result ≡ numbers l }
{
    [
        mean_kind(l.temperature),
        mean_kind(l.dew_point),
        mean_kind(l.pressure),
        mean_kind(l.wind),
        mean_kind(l.cloud),
        mean_kind(l.vapour),
        rain_present(l.rain),
        rain_tenths(l.rain),
        slot_number(l.warmest),
        slot_number(l.coldest),
        l.read as i32,
        l.corrected as i32,
        l.filled as i32,
        l.missing as i32,
    ]
}
