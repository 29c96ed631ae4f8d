// S-5: R and tR of a report as its slot gets them, where a dry station left group 6 out.
ghost use Rattle.std.specs.Prelude.{◌≡◌};
ghost use Rattle.synop_values.specs.Value as codes;
ghost use Rattle.rules.specs.Dry.{is_dry, dry_duration, filed_duration, filed_rain};

use synop::contents::Indicators;

// Whether iR is 3, and R is absent from the report.
fn is_dry(h: Indicators) -> bool
    ensures { result ≡ is_dry h }
{
    h.rain_indicator == 3 && !h.rain_sent
}

// tR that the R of a dry station has in slot k; 0 where it stays missing, the number that the store keeps then. A table of the paper, slot by slot.
fn dry_duration(k: usize) -> u8
    ensures { result ≡ dry_duration k }
{
    match k {
        0 | 4 | 8 => 2,
        2 | 6 => 1,
        _ => 0,
    }
}

// tR of a report as slot k gets it.
pub fn filed_duration(k: usize, h: Indicators) -> u8
    ensures { result ≡ filed_duration k h }
{
    if is_dry(h) {
        return dry_duration(k);
    }
    h.rain_duration
}

// And R.
pub fn filed_rain(k: usize, h: Indicators, rain: Option<i16>) -> Option<i16>
    ensures { codes.meaning result ≡ filed_rain k h (codes.meaning rain) }
{
    if !is_dry(h) {
        return rain;
    }
    match dry_duration(k) {
        0 => None,
        _ => Some(0),
    }
}
