// The means of the day line: of a column over slots 0 to 7. The column of vapour pressures is the matter of `vapours`.
ghost use Rattle.std.specs.Prelude.{◌≡◌};
ghost use Rattle.quality.specs.Coded.{cells};
ghost use Rattle.daily.specs.Coded.{eighth, IsEighth, SaysMean};
ghost use Rattle.daily.specs.Means.{average, eightfold};
ghost use Rattle.daily_line.specs.MeanParts.{complete, plain};

use daily::Mean;
use quality::column::Column;

// None of the slots 0 to 7 is missing or has a humidity.
fn complete(c: Column) -> bool
    ensures { result ≡ complete (cells c) }
{
    (0..8).all(|k| !c.at(k).passed_over())
}

// None of them is corrected or filled.
fn plain(c: Column) -> bool
    ensures { result ≡ plain (cells c) }
{
    (0..8).all(|k| !matches!(c.at(k).state, 2 | 3))
}

// Their values added. A loop, since an iterator's sum of signed numbers is not known to fit.
fn eightfold(c: Column) -> i32
    ensures { result ≡ eightfold (cells c) }
{
    let values = c.values;
    let mut sum = 0;
    for value in &values[..8] {
        sum += i32::from(*value);
    }
    sum
}

// The eightfold sum times 0.125: exactly an eighth of it. One cast and one multiplication: the form that document 01 names.
fn eighth(sum: i32) -> f64
    ensures rule { result ≡ eighth sum }
    ensures exact { IsEighth result sum }
{
    sum as f64 * 0.125
}

pub fn mean(c: Column) -> Mean
    ensures { SaysMean result (average (cells c)) }
{
    if !complete(c) {
        return Mean::Absent;
    }
    let x = eighth(eightfold(c));
    if plain(c) {
        return Mean::Read(x);
    }
    Mean::Mended(x)
}
