// The cells of a sheet by their state.
ghost use Rattle.std.specs.Prelude.{◌≡◌, cond, ◌≤◌};
ghost use Rattle.quality.specs.Coded.{cells, sheet};
ghost use Rattle.daily.specs.Counts.{counts_under, in_column, count};

use quality::column::Column;

// 1 where a cell in state a counts under b, else 0: under its own state, and a humidity under that of read cells.
fn counted(a: u8, b: u8) -> u32
    ensures { (result ≡ cond (counts_under b a) 1 0) × (result ≤ 1) }
{
    u32::from((a == b) | ((a == 4) & (b == 1)))
}

// Added up and not counted by a filter, which takes a branch for each cell.
fn in_column(c: &Column, state: u8) -> u32
    ensures { (result ≡ in_column state (cells c.now) 9) × (result ≤ 9) }
{
    let states = c.states;
    states.iter().map(|a| counted(*a, state)).sum()
}

pub fn count(s: &[Column; 9], state: u8) -> u32
    ensures { result ≡ count state (sheet s.now) }
{
    s.iter().map(|c| in_column(c, state)).sum()
}
