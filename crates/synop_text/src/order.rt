// The order of the groups of a report, document 01's check 5: the place of each group, from the place of the one before.
ghost use Rattle.std.specs.Prelude.{◌≡◌};
ghost use Rattle.synop_text.specs.Places as places;

use crate::{Characters, Group};

// Where in a report a group stands: what it was taken for.
#[derive(Clone, Copy)]
pub enum Place {
    // Before the first group.
    Start,
    // `AAXX`.
    Letters,
    // YYGGiw.
    Time,
    // IIiii.
    Station,
    // `NIL`.
    Nothing,
    // iRixhVV.
    Visibility,
    // Nddff, and whether ff is 99, all that the next place asks of it.
    Wind(bool),
    // 00fff.
    Gale,
    // Section 1, by the group's first digit.
    One(u8),
    // Section 2, 3, 4 or 5, and whether a 55 run is under way, all that the next place asks of it.
    Later(u8, bool),
    // Out of order. A place as the others: the walk goes on, since checks 3 and 4 are asked of the whole text first.
    Wrong,
}

// Whether there was a group at all.
pub fn begun(p: Place) -> bool
    ensures { result ≡ places.begun p }
{
    !matches!(p, Place::Start)
}

#[tactic(auto, unfolding(crate::specs::Places::aaxx_after))]
fn aaxx_after(p: Place) -> Place
    ensures { result ≡ places.aaxx_after p }
{
    if begun(p) {
        return Place::Wrong;
    }
    Place::Letters
}

fn nil_after(p: Place) -> Place
    ensures { result ≡ places.nil_after p }
{
    match p {
        Place::Station => Place::Nothing,
        _ => Place::Wrong,
    }
}

// The number of the section that a place is in, 0 for none. A number throughout: 0 is below each section, so that one comparison tells
// whether there is one.
fn section_of(p: Place) -> u8
    ensures { result ≡ places.section_of p }
{
    match p {
        Place::Wind(_) | Place::Gale | Place::One(_) => 1,
        Place::Later(n, _) => n,
        _ => 0,
    }
}

// The section m after section n.
#[tactic(auto, unfolding(crate::specs::Places::opened))]
fn opened(n: u8, m: u8) -> Place
    ensures { result ≡ places.opened n m }
{
    if 1 <= n && n < m {
        return Place::Later(m, false);
    }
    Place::Wrong
}

// A group of section 1 after one that begins with `last`.
#[tactic(auto, unfolding(crate::specs::Places::ordered))]
fn ordered(last: u8, x: Characters) -> Place
    ensures { result ≡ places.ordered last x }
{
    if x.a == b'2' && x.b == b'2' && x.c == b'2' {
        return Place::Later(2, false);
    }
    if last < x.a {
        return Place::One(x.a);
    }
    Place::Wrong
}

// Whether a 55 run is under way after a group of a later section. `run` is what `Later` holds, and the answer is what the next one holds.
fn runs(run: bool, x: Characters) -> bool
    ensures { result ≡ places.runs run x }
{
    let begins = x.a == b'5' && x.b == b'5';
    let ends = matches!(x.a, b'7'..=b'9');
    begins || (run && !ends)
}

#[tactic(auto, unfolding(crate::specs::Places::first_of_one))]
fn five_after(p: Place, x: Characters) -> Place
    ensures { result ≡ places.five_after p x }
{
    match p {
        Place::Letters => Place::Time,
        Place::Time => Place::Station,
        Place::Station => Place::Visibility,
        Place::Visibility => Place::Wind(x.d == b'9' && x.e == b'9'),
        Place::Wind(true) if x.a == b'0' && x.b == b'0' => Place::Gale,
        Place::Wind(_) | Place::Gale => ordered(b'0', x),
        Place::One(last) => ordered(last, x),
        Place::Later(n, run) => Place::Later(n, runs(run, x)),
        Place::Start | Place::Nothing | Place::Wrong => Place::Wrong,
    }
}

// The place of a group, after the place of the one before.
pub fn next(p: Place, g: Group) -> Place
    ensures { result ≡ places.next p g }
{
    match g {
        Group::Other => Place::Wrong,
        Group::Aaxx => aaxx_after(p),
        Group::Nil => nil_after(p),
        Group::Section(m) => opened(section_of(p), m),
        Group::Five(x) => five_after(p, x),
    }
}

pub fn is_nil(p: Place) -> bool
    ensures { result ≡ places.is_nil p }
{
    matches!(p, Place::Nothing)
}

// Whether a report may end with a group at this place.
#[tactic(auto, unfolding(crate::specs::Places::complete))]
pub fn complete(p: Place) -> bool
    ensures { result ≡ places.complete p }
{
    is_nil(p) || 1 <= section_of(p)
}
