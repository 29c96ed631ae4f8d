// The text of a report as groups. A cursor walks the groups, one step a group, and each group is of a kind.
// In what order the groups come, check 5, is the matter of `order`.
#![tactic(auto)]

pub mod order;

ghost use Rattle.std.specs.Prelude.{◌≡◌, not};
ghost use Rattle.std.specs.List.{position};
ghost use Rattle.synop_text.specs.Characters as characters;
ghost use Rattle.synop_text.specs.Kinds as kinds;
ghost use Rattle.synop_text.specs.Walk.{Stepped, Taken};

// The five characters of a group.
#[derive(Clone, Copy, PartialEq, Eq)]
pub struct Characters {
    pub a: u8,
    pub b: u8,
    pub c: u8,
    pub d: u8,
    pub e: u8,
}

// What kind of group it is.
#[derive(Clone, Copy)]
pub enum Group {
    // None of the kinds below; a case and no `None`, since it is one of the text's groups as well.
    Other,
    Aaxx,
    Nil,
    // `333`, `444` or `555`, by the section's number.
    Section(u8),
    // Five characters, each a digit or `/`.
    Five(Characters),
}

// Where a group stands in the text: from `start` up to `end`.
#[derive(Clone, Copy)]
pub struct Span {
    pub start: usize,
    pub end: usize,
}

// A place in the text between two groups. By value, and no iterator: the form that document 01 names for this place.
#[derive(Clone, Copy)]
pub struct Cursor {
    pub at: usize,
}

// ---- characters

// A character that belongs to no group. Another table than that of `synop_checks::is_unit`, which has four codes too.
fn parts(b: u8) -> bool
    ensures { result ≡ characters.parts b }
{
    matches!(b, b' ' | b'\r' | b'\n' | b'=')
}

pub fn is_digit(b: u8) -> bool
    ensures { result ≡ characters.is_digit b }
{
    matches!(b, b'0'..=b'9')
}

fn is_figure(b: u8) -> bool
    ensures { result ≡ characters.is_figure b }
{
    b == b'/' || is_digit(b)
}

#[tactic(auto, unfolding(crate::specs::Characters::are_figures))]
fn are_figures(x: Characters) -> bool
    ensures { result ≡ characters.are_figures x }
{
    is_figure(x.a) & is_figure(x.b) & is_figure(x.c) & is_figure(x.d) & is_figure(x.e)
}

// ---- kinds

#[tactic(auto, unfolding(crate::specs::Kinds::of_five))]
fn of_five(x: Characters) -> Group
    ensures { result ≡ kinds.of_five x }
{
    if are_figures(x) {
        return Group::Five(x);
    }
    Group::Other
}

// The kind of a group, by its characters.
#[tactic(auto, using(crate::proofs::Lengths::other_three, crate::proofs::Lengths::three, crate::proofs::Lengths::four, crate::proofs::Lengths::five, crate::proofs::Lengths::others), unfolding(crate::specs::Kinds::of_three, crate::specs::Kinds::of_four))]
pub fn kind_of(g: &[u8]) -> Group
    ensures { result ≡ kinds.kind_of g.now }
{
    match g {
        b"AAXX" => Group::Aaxx,
        b"NIL" => Group::Nil,
        b"333" => Group::Section(3),
        b"444" => Group::Section(4),
        b"555" => Group::Section(5),
        &[a, b, c, d, e] => of_five(Characters { a, b, c, d, e }),
        _ => Group::Other,
    }
}

// The characters of a group of five.
#[tactic(auto, unfolding(crate::specs::Kinds::characters_of))]
pub fn characters_of(g: Group) -> Option<Characters>
    ensures { result ≡ kinds.characters_of g }
{
    match g {
        Group::Five(x) => Some(x),
        _ => None,
    }
}

// ---- the walk

// Where the first group starts.
fn first_start(s: &[u8]) -> Option<usize>
    ensures { result ≡ position (λ b. not (characters.parts b)) s.now }
{
    s.iter().position(|&b| !parts(b))
}

// Where the first character stands that parts groups.
fn first_blank(s: &[u8]) -> Option<usize>
    ensures { result ≡ position characters.parts s.now }
{
    s.iter().position(|&b| parts(b))
}

impl Cursor {
    pub fn new() -> Self
        ensures { result.at ≡ 0 }
    {
        Cursor { at: 0 }
    }

    // Where the next group stands, if there is one. The cursor after it is at its end.
    pub fn step(self, s: &[u8]) -> Option<Span>
        ensures { Stepped s.now self.at result }
    {
        let rest = s.get(self.at..)?;
        let skipped = first_start(rest)?;
        let start = self.at + skipped;
        let group = &s[start..];
        let end = start + first_blank(group).unwrap_or(group.len());
        Some(Span { start, end })
    }

    // The next group's kind, and the cursor after it.
    pub fn take(self, s: &[u8]) -> Option<(Group, Cursor)>
        ensures { Taken s.now self.at result }
    {
        let Span { start, end } = self.step(s)?;
        Some((kind_of(&s[start..end]), Cursor { at: end }))
    }
}
