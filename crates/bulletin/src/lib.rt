// Bulletins: a heading, then reports without it, filed one after the other with that heading. The call `bulletin` has no `requires`: it
// answers on every buffer and text, and its contract gives the whole answer and every byte of the store at exit.
#![tactic(auto)]

mod report;
mod text;

ghost use Rattle.store_layout.specs.Form.{ours, AnyTwoForms};
ghost use Rattle.bulletin.specs.Pieces.{parted};
ghost use Rattle.bulletin.specs.Rebuilt.{heading};
ghost use Rattle.bulletin.specs.Filings.{AsCalls};
ghost use Rattle.bulletin.specs.Forms.{SameBulletins};
ghost use Rattle.bulletin.specs.Bulletin.{filings, at_first, Tallied, Ready, Gave};
ghost use Rattle.bulletin.specs.Bulletin as Bulletin;

use crate::report::file_report;
use crate::text::{is_blank, start_of};
use quality::head::HIGHEST_RANK;
use refusals::Refusal;
use store_soundness::sound::is_sound;
use synop_text::Characters;
use texts::bytes::find;

// The reports that were accepted, and those that were refused.
#[derive(Clone, Copy)]
pub struct Tally {
    pub accepted: u32,
    pub refused: u32,
}

// The reports of a text, filed in order and counted; a tail that is not blank is one refused.
// By `find`: of the pieces of `split_inclusive` each would be asked again whether it ends in `=`, to tell the tail from a report.
fn file_reports(store: &mut [u8], text: &[u8], time: Characters, rank: u8) -> Tally
    requires { Ready store.old text.now rank }
    ensures { Tallied (filings ours rank (heading time) (parted text.now) (at_first store.old)) result.accepted result.refused store.new }
{
    let mut rest = text;
    let mut accepted: u32 = 0;
    let mut refused: u32 = 0;
    while let Some(end) = find(rest, b'=') {
        let filed = file_report(store, rank, time, &rest[..end]).is_ok();
        accepted += u32::from(filed);
        refused += u32::from(!filed);
        rest = &rest[end + 1..];
    }
    let blank = is_blank(rest);
    refused += u32::from(!blank);
    Tally { accepted, refused }
}

// A bulletin: refused whole 9, 13 for a rank above 24, 1, then 3 or 4; otherwise its reports are filed in order at that rank and counted. The
// store is tested once. Store, text and rank are the call's own arguments.
pub fn bulletin(store: &mut [u8], text: &[u8], rank: u32) -> Result<Tally, Refusal>
    ensures { Gave (Bulletin.result store.old text.now rank) result store.new }
{
    if !is_sound(store) {
        return Err(Refusal::Unsound);
    }
    if HIGHEST_RANK < rank {
        return Err(Refusal::Rank);
    }
    let fits = (1 <= text.len()) & (text.len() <= 16384);
    if !fits {
        return Err(Refusal::Unended);
    }
    let end = find(text, b'=').unwrap_or(text.len());
    let start = start_of(&text[..end])?;
    Ok(file_reports(store, &text[start.at..], start.time, rank as u8))
}

// A bulletin leaves what the filings of its reports leave.
pub fn as_calls()
    ensures { AsCalls }
{}

// In any two byte forms of a store a bulletin gives the same answer and leaves corresponding stores.
pub fn same_bulletins()
    ensures { AnyTwoForms SameBulletins }
{}
