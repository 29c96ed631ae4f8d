// A SYNOP report read: from the bytes of a text to why it is refused, or to its station, day and hour and, unless it is `NIL`, its
// indicators and its nine values. What the groups hold is the matter of `contents`.
#![tactic(auto)]

pub mod contents;

ghost use Rattle.std.specs.Prelude.{◌≡◌, true};
ghost use Rattle.synop_text.specs.Kinds.{tokens};
ghost use Rattle.refusals.specs.Refusals.{number_or_zero};
ghost use Rattle.synop_checks.specs.Refusal as checks;
ghost use Rattle.synop.specs.Report as reports;

use crate::contents::{Identification, Indicators, Values};
use refusals::Refusal;
use synop_parts::{Part, Parts};
use synop_text::Cursor;
use synop_text::order::Place;

// What a report says that passes: nothing, or all of it.
#[derive(Clone, Copy)]
pub enum Report {
    Nil(Identification),
    Whole(Identification, Indicators, Values),
}

// A report that passes, by the place of its last group and its parts.
#[tactic(auto, unfolding(crate::specs::Report::content))]
fn content(p: Place, kept: &Parts) -> Report
    ensures { reports.passed result ≡ reports.content p kept.now.groups }
{
    let identification = crate::contents::identification_of(
        kept.of(Part::Time),
        kept.of(Part::Station),
    );
    if synop_text::order::is_nil(p) {
        return Report::Nil(identification);
    }
    let rain = kept.of(Part::Rain).or(kept.of(Part::LaterRain));
    let indicators = crate::contents::indicators_of(
        kept.of(Part::Visibility),
        kept.of(Part::Wind),
        rain,
    );
    Report::Whole(
        identification,
        indicators,
        crate::contents::values_of(kept, rain),
    )
}

// What the groups are that were walked: the first check that fails, or the content. `shaped` and `ranged` are what checks 3 and 4 found.
#[tactic(auto, unfolding(crate::specs::Report::answered))]
fn answer(p: Place, shaped: bool, ranged: bool, kept: &Parts) -> Result<Report, Refusal>
    ensures { reports.meaning result ≡ reports.answered p shaped ranged kept.now.groups }
{
    let shape = shaped & synop_text::order::begun(p);
    if !shape {
        return Err(Refusal::Shape);
    }
    if !ranged {
        return Err(Refusal::OutOfRange);
    }
    if !synop_text::order::complete(p) {
        return Err(Refusal::Order);
    }
    Ok(content(p, kept))
}

// ---- the walk

// The groups of a text that passes checks 1 and 2, one after the other. By a cursor: the form that document 01 names for this place.
#[tactic(auto, using(crate::proofs::Walking::stop, crate::proofs::Walking::past))]
fn walk(text: &[u8]) -> Result<Report, Refusal>
    ensures { reports.meaning result ≡ reports.read (checks.of_groups (tokens text.now)) (tokens text.now) }
{
    let mut kept = Parts::new();
    let mut place = Place::Start;
    let mut ranged = true;
    let mut cursor = Cursor::new();
    while let Some((g, next)) = cursor.take(text) {
        if !synop_checks::shaped(place, g) {
            return answer(place, false, ranged, &kept);
        }
        ranged &= synop_checks::ranged(place, g);
        place = synop_text::order::next(place, g);
        kept.keep(place, g);
        cursor = next;
    }
    answer(place, true, ranged, &kept)
}

// What a text is.
#[tactic(auto, using(crate::proofs::Assembled::by_bytes, crate::proofs::Assembled::by_groups))]
pub fn read(text: &[u8]) -> Result<Report, Refusal>
    ensures { reports.meaning result ≡ reports.report text.now }
{
    synop_checks::bytes::of_bytes(text)?;
    walk(text)
}

// The first check that a text fails, if it fails one.
#[tactic(auto, using(crate::proofs::Refusals::of_refused, crate::proofs::Refusals::of_passed))]
pub fn refusal(text: &[u8]) -> Result<(), Refusal>
    ensures { number_or_zero result ≡ checks.refusal text.now }
{
    read(text)?;
    Ok(())
}
