// The day line of one station: its form, its rules in specs/, and its extremes and counts. Document 01, "The day line".
// `daily_line` has its other parts, means, vapour pressures and rain, and puts it together.
#![tactic(auto)]

pub mod counts;
pub mod extremes;

// A mean over slots 0 to 7: absent, fully read or partly mended. Three cases of the paper; an `Option` of two would nest two matches at each use.
#[derive(Clone, Copy)]
pub enum Mean {
    Absent,
    Read(f64),
    Mended(f64),
}

// The means; the day's rain in tenths of a millimetre; the warmest and the coldest slot; and the counts of the 81 cells by their state.
#[derive(Clone, Copy)]
pub struct DayLine {
    pub temperature: Mean,
    pub dew_point: Mean,
    pub pressure: Mean,
    pub wind: Mean,
    pub cloud: Mean,
    pub vapour: Mean,
    pub rain: Option<i32>,
    pub warmest: Option<usize>,
    pub coldest: Option<usize>,
    pub read: u32,
    pub corrected: u32,
    pub filled: u32,
    pub missing: u32,
}
