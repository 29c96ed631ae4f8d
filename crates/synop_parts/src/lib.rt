// Which group of a report is which: the parts that are read, found by the places of the groups, and kept by part.
#![tactic(auto)]

ghost use Rattle.std.specs.Prelude.{◌≡◌};
ghost use Rattle.synop_text.specs.Kinds.{characters_of};
ghost use Rattle.synop_parts.specs.Parts as parts;

use synop_text::order::Place;
use synop_text::{Characters, Group, characters_of};

// The parts of a report that are read, in the order that they are kept in.
#[derive(Clone, Copy)]
pub enum Part {
    // YYGGiw, IIiii, iRixhVV, Nddff, 00fff.
    Time,
    Station,
    Visibility,
    Wind,
    Gale,
    // Groups 1, 2, 4 and 6 of section 1.
    Temperature,
    DewPoint,
    Pressure,
    Rain,
    // Groups 1, 2 and 6 of section 3.
    Maximum,
    Minimum,
    LaterRain,
}

// How many they are.
const PARTS: usize = 12;

// By the first digit of a group of section 1: a table of the paper.
#[tactic(auto, unfolding(crate::specs::Parts::of_one))]
fn of_one(d: u8) -> Option<Part>
    ensures { result ≡ parts.of_one d }
{
    match d {
        b'1' => Some(Part::Temperature),
        b'2' => Some(Part::DewPoint),
        b'4' => Some(Part::Pressure),
        b'6' => Some(Part::Rain),
        _ => None,
    }
}

// And of section 3.
#[tactic(auto, unfolding(crate::specs::Parts::of_three))]
fn of_three(a: u8) -> Option<Part>
    ensures { result ≡ parts.of_three a }
{
    match a {
        b'1' => Some(Part::Maximum),
        b'2' => Some(Part::Minimum),
        b'6' => Some(Part::LaterRain),
        _ => None,
    }
}

fn in_three(g: Group) -> Option<Part>
    ensures { result ≡ parts.in_three g }
{
    match g {
        Group::Five(x) => of_three(x.a),
        _ => None,
    }
}

// The part of a report that a group at this place is: of the later sections only section 3, and there no group of a 55 run.
#[tactic(auto, unfolding(crate::specs::Parts::of_later))]
pub fn part_of(p: Place, g: Group) -> Option<Part>
    ensures { result ≡ parts.part_of p g }
{
    match p {
        Place::Time => Some(Part::Time),
        Place::Station => Some(Part::Station),
        Place::Visibility => Some(Part::Visibility),
        Place::Wind(_) => Some(Part::Wind),
        Place::Gale => Some(Part::Gale),
        Place::One(d) => of_one(d),
        Place::Later(3, false) => in_three(g),
        _ => None,
    }
}

// The groups of a report's parts, `None` where it has none.
#[derive(Clone, Copy)]
pub struct Parts {
    pub groups: [Option<Characters>; PARTS],
}

impl Parts {
    // Of a report of which nothing has been read.
    pub fn new() -> Self
        ensures { result.groups ≡ parts.none }
    {
        Parts {
            groups: [None; PARTS],
        }
    }

    // The group of a part.
    pub fn of(&self, part: Part) -> Option<Characters>
        ensures { result ≡ parts.part self.now.groups part }
    {
        self.groups[part as usize]
    }

    // A group at this place: of several that are one part, the first counts.
    pub fn keep(&mut self, p: Place, g: Group)
        ensures { self.new.groups ≡ parts.keep self.old.groups (parts.part_of p g) (characters_of g) }
    {
        if let Some(part) = part_of(p, g) {
            let k = part as usize;
            self.groups[k] = self.groups[k].or(characters_of(g));
        }
    }
}
