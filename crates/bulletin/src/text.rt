// The text of bulletins: the heading, and a report's text rebuilt with the heading before it.
ghost use Rattle.std.specs.Prelude.{◌≡◌};
ghost use Rattle.synop_text.specs.Groups.{groups};
ghost use Rattle.bulletin.specs.Heading.{heading_of, Begins};
ghost use Rattle.bulletin.specs.Pieces.{none};
ghost use Rattle.bulletin.specs.Rebuilt.{spaced, heading};
ghost use Rattle.texts.specs.Written.{Adds};

use arrayvec::ArrayVec;
use refusals::Refusal;
use synop_checks::{ranged, shaped};
use synop_text::order::Place;
use synop_text::{Characters, Cursor, Group, Span, kind_of};
use texts::bytes::{put, put_all};

// The characters of a bulletin's YYGGiw, and where its reports begin.
#[derive(Clone, Copy)]
pub struct Start {
    pub time: Characters,
    pub at: usize,
}

// ---- the heading

// The first two groups of a bulletin: check 3, then 4.
#[tactic(auto, unfolding(crate::specs::Heading::heading_of, crate::specs::Heading::time_of))]
fn heading_of(g: Group, h: Group) -> Result<Characters, Refusal>
    ensures { result ≡ heading_of g h }
{
    let Group::Five(time) = h else {
        return Err(Refusal::Shape);
    };
    if !(shaped(Place::Start, g) & shaped(Place::Letters, h)) {
        return Err(Refusal::Shape);
    }
    if !ranged(Place::Letters, h) {
        return Err(Refusal::OutOfRange);
    }
    Ok(time)
}

// The heading that a bulletin's first piece begins with.
pub fn start_of(piece: &[u8]) -> Result<Start, Refusal>
    ensures { Begins piece.now result }
{
    let first = Cursor::new().step(piece).ok_or(Refusal::Shape)?;
    let second = Cursor { at: first.end }.step(piece).ok_or(Refusal::Shape)?;
    let g = kind_of(&piece[first.start..first.end]);
    let h = kind_of(&piece[second.start..second.end]);
    Ok(Start {
        time: heading_of(g, h)?,
        at: second.end,
    })
}

// ---- the reports

// The groups of a piece, each after a space, behind the text that is there. By a cursor: the form that document 01 names for this place.
#[tactic(auto, using(crate::proofs::Squeezed::first_put, crate::proofs::Squeezed::none_put))]
pub fn squeeze<const N: usize>(text: &mut ArrayVec<u8, N>, piece: &[u8])
    ensures { Adds N text.old.items text.new.items (spaced (groups piece.now)) }
{
    let mut cursor = Cursor::new();
    while let Some(Span { start, end }) = cursor.step(piece) {
        put(text, b' ');
        put_all(text, &piece[start..end]);
        cursor = Cursor { at: end };
    }
}

// A text with the heading in it. It has room for one byte more than the longest report that is not refused for its length.
pub fn begin(time: Characters) -> ArrayVec<u8, 513>
    ensures { result.items ≡ heading time }
{
    let Characters { a, b, c, d, e } = time;
    let mut text = ArrayVec::new();
    put_all(&mut text, b"AAXX ");
    put_all(&mut text, &[a, b, c, d, e]);
    text
}

// Whether a piece has no groups.
pub fn is_blank(piece: &[u8]) -> bool
    ensures { result ≡ none (groups piece.now) }
{
    Cursor::new().step(piece).is_none()
}
