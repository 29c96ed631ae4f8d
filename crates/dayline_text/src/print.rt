// What the program `dayline` prints. Each inner function puts its part behind the text that is there, as far as there is room.
ghost use Rattle.std.specs.Prelude.{◌≡◌};
ghost use Rattle.texts.specs.Written.{Adds};
ghost use Rattle.texts.specs.Numbers as numbers;
ghost use Rattle.dayline_text.specs.Printed as printed;

use arrayvec::ArrayVec;
use daily::DayLine;
use itoa::Integer;
use texts::bytes::{put, put_all};
use texts::numbers::{five_digits, number};

// A number behind a space, or `-` where there is none.
fn field<I: Integer, const N: usize>(text: &mut ArrayVec<u8, N>, value: Option<I>)
    ensures { Adds N text.old.items text.new.items (numbers.field (printed.or_dash I.text value)) }
{
    match value {
        None => put_all(text, b" -"),
        Some(n) => number(text, n),
    }
}

// The rain and the two slots.
fn measured<const N: usize>(text: &mut ArrayVec<u8, N>, day: DayLine)
    ensures { Adds N text.old.items text.new.items (printed.measured day.rain day.warmest day.coldest) }
{
    field(text, day.rain);
    field(text, day.warmest);
    field(text, day.coldest);
}

// The four counts.
fn counts<const N: usize>(text: &mut ArrayVec<u8, N>, day: DayLine)
    ensures { Adds N text.old.items text.new.items (printed.counts day.read day.corrected day.filled day.missing) }
{
    number(text, day.read);
    number(text, day.corrected);
    number(text, day.filled);
    number(text, day.missing);
}

// A station's line.
pub fn day_text(station: u32, day: DayLine) -> ArrayVec<u8, 160>
    ensures { result.items ≡ printed.day_text station day }
{
    let mut text = ArrayVec::new();
    put_all(&mut text, &five_digits(station));
    measured(&mut text, day);
    counts(&mut text, day);
    put(&mut text, b'\n');
    text
}

// The last line: how many reports were refused.
pub fn refused_text(n: u64) -> ArrayVec<u8, 160>
    ensures { result.items ≡ printed.refused_text n }
{
    let mut text = ArrayVec::new();
    put_all(&mut text, b"refused");
    number(&mut text, n);
    put(&mut text, b'\n');
    text
}
