// Document 01's checks 1 and 2 of a text's bytes (`bytes`), and 3 and 4 of one group after a place. 5 is the matter of `synop_text::order`.
#![tactic(auto)]

pub mod bytes;

ghost use Rattle.std.specs.Prelude.{true, false, ◌≡◌};
ghost use Rattle.synop_checks.specs.Ranges as ranges;
ghost use Rattle.synop_checks.specs.Shapes as shapes;

use synop_text::order::Place;
use synop_text::{Characters, Group, is_digit};
use synop_values::figures::two;

// ---- 3: a group's shape at its place

fn is_aaxx(g: Group) -> bool
    ensures { result ≡ shapes.is_aaxx g }
{
    matches!(g, Group::Aaxx)
}

#[tactic(auto, unfolding(crate::specs::Shapes::are_digits))]
fn are_digits(x: Characters) -> bool
    ensures { result ≡ shapes.are_digits x }
{
    is_digit(x.a) && is_digit(x.b) && is_digit(x.c) && is_digit(x.d) && is_digit(x.e)
}

fn is_digits(g: Group) -> bool
    ensures { result ≡ shapes.is_digits g }
{
    match g {
        Group::Five(x) => are_digits(x),
        _ => false,
    }
}

// Any of the shapes.
fn is_group(g: Group) -> bool
    ensures { result ≡ shapes.is_group true g }
{
    !matches!(g, Group::Other)
}

// Any of the shapes but `NIL`.
fn is_group_but_nil(g: Group) -> bool
    ensures { result ≡ shapes.is_group false g }
{
    !matches!(g, Group::Other | Group::Nil)
}

// Whether a group after this place has its shape.
pub fn shaped(p: Place, g: Group) -> bool
    ensures { result ≡ shapes.shaped p g }
{
    match p {
        Place::Start => is_aaxx(g),
        Place::Letters | Place::Time => is_digits(g),
        Place::Station => is_group(g),
        Place::Nothing => false,
        _ => is_group_but_nil(g),
    }
}

// ---- 4: the heading's ranges

// 00000.
const NO_STATION: Characters = Characters {
    a: b'0',
    b: b'0',
    c: b'0',
    d: b'0',
    e: b'0',
};

// YY. Not one function with `is_hour`: each is one line of the paper's, and one function of both would have the bounds passed.
#[tactic(auto, unfolding(crate::specs::Ranges::is_day))]
fn is_day(a: u8, b: u8) -> bool
    ensures { result ≡ ranges.is_day a b }
{
    matches!(two(a, b), Some(1..=31))
}

// GG.
#[tactic(auto, unfolding(crate::specs::Ranges::is_hour))]
fn is_hour(a: u8, b: u8) -> bool
    ensures { result ≡ ranges.is_hour a b }
{
    matches!(two(a, b), Some(0..=23))
}

// iw. Like `synop_text::parts` in its form alone: these are other characters.
#[tactic(auto, unfolding(crate::specs::Ranges::is_unit))]
fn is_unit(iw: u8) -> bool
    ensures { result ≡ ranges.is_unit iw }
{
    matches!(iw, b'0' | b'1' | b'3' | b'4')
}

// YYGGiw.
#[tactic(auto, unfolding(crate::specs::Ranges::is_time))]
fn is_time(x: Characters) -> bool
    ensures { result ≡ ranges.is_time x }
{
    is_day(x.a, x.b) && is_hour(x.c, x.d) && is_unit(x.e)
}

// IIiii.
#[tactic(auto, unfolding(crate::specs::Ranges::is_station))]
fn is_station(x: Characters) -> bool
    ensures { result ≡ ranges.is_station x }
{
    x != NO_STATION
}

// Five characters after this place.
fn five_ranged(p: Place, x: Characters) -> bool
    ensures { result ≡ ranges.five_ranged p x }
{
    match p {
        Place::Letters => is_time(x),
        Place::Time => is_station(x),
        _ => true,
    }
}

// Whether a group after this place is in range.
pub fn ranged(p: Place, g: Group) -> bool
    ensures { result ≡ ranges.ranged p g }
{
    match g {
        Group::Five(x) => five_ranged(p, x),
        _ => true,
    }
}
