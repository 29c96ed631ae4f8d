// The first line, read a byte at a time, so that it may be of any length: numbers parted by blanks. Year, month and day come first,
// then a number and a climate row for each station.
ghost use Rattle.std.specs.Prelude.{◌≡◌, List, ◌∷◌, ◌++◌, ℕ, ◌≤◌, min, length, true, IfSome};
ghost use Rattle.dayline_text.specs.FirstLine as first;
ghost use Rattle.dayline_text.specs.Line.{goes, Ended, Opens, told};

use crate::cut::is_blank;
use calendar::Date;
use synop_text::is_digit;
use texts::few::Few;

// The line so far: the numbers that are whole, the one that is being read, and whether the line may still open a store.
#[derive(Clone, Copy)]
pub struct Line {
    pub numbers: Few<u32, 67>,
    pub number: Option<u32>,
    // A flag: of a byte that spoils the line, or of a number too many, no other field tells.
    pub good: bool,
}

// What a whole line opens: a date, and a number and a row for each of the stations. Two lists, since `open` takes two, as from C.
#[derive(Clone, Copy)]
pub struct Opening {
    pub date: Date,
    pub stations: Few<u32, 32>,
    pub rows: Few<u16, 32>,
}

// A number with one more digit.
fn grown(n: u32, digit: u8) -> u32
    requires { 48 ≤ digit }
    ensures { result ≡ first.grown n digit }
{
    n.saturating_mul(10)
        .saturating_add(u32::from(digit - b'0'))
        .min(999_999_999)
}

impl Line {
    // A line of which nothing is read.
    pub fn new() -> Line
        ensures { (s : List ℕ) → goes result s ≡ first.first_line s }
    {
        Line {
            numbers: Few::new(),
            number: None,
            good: true,
        }
    }

    // The end of a number, where one is being read: it goes to the list of numbers. A number too many spoils the line.
    fn end(&mut self)
        ensures { Ended self.old self.new }
    {
        if let Some(n) = self.number {
            self.number = None;
            self.good &= self.numbers.try_push(n).is_ok();
        }
    }

    // One byte of the line: a digit, a blank, or one that spoils the line.
    fn byte(&mut self, b: u8)
        ensures { (s : List ℕ) → goes self.new s ≡ goes self.old (b ∷ s) }
    {
        if is_digit(b) {
            self.number = Some(grown(self.number.unwrap_or(0), b));
            return;
        }
        self.end();
        self.good &= is_blank(b);
    }

    // A piece of the line.
    pub fn piece(&mut self, s: &[u8])
        ensures { (t : List ℕ) → goes self.new t ≡ goes self.old (s.now ++ t) }
    {
        for &b in s {
            self.byte(b);
        }
    }

    // What the line opens, at its end.
    pub fn opened(mut self) -> Option<Opening>
        ensures { Opens self result }
    {
        self.end();
        if !self.good {
            return None;
        }
        pairs_opened(&self.numbers)
    }
}

// A number in 16 bits.
fn narrow(n: u32) -> u16
    ensures { result ≡ min n 65535 }
{
    u16::try_from(n).unwrap_or(u16::MAX)
}

// Whether so many numbers are a date and 1 to 32 pairs.
fn is_whole(count: usize) -> bool
    ensures { result ≡ first.is_whole count }
{
    5 <= count && count <= 67 && count % 2 == 1
}

// What these numbers open, as far as no byte has spoilt the line: three for the date, then a station and its row in each pair.
fn pairs_opened(numbers: &[u32]) -> Option<Opening>
    ensures says { told result ≡ first.first true numbers.now }
    ensures few { IfSome result (λ o. length o.stations.items ≤ 32) }
{
    if !is_whole(numbers.len()) {
        return None;
    }
    let mut stations = Few::new();
    let mut rows = Few::new();
    let (pairs, _) = numbers[3..].as_chunks::<2>();
    for &[station, row] in pairs {
        stations.push(station);
        rows.push(narrow(row));
    }
    Some(Opening {
        date: Date {
            year: numbers[0],
            month: numbers[1],
            day: numbers[2],
        },
        stations,
        rows,
    })
}
