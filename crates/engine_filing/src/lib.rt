// Filing a report in a store that is known to be sound: in the slot of the station that it names, to which `placing` writes it.
// Whoever calls has tested the store, once for all reports of a text, so that each function requires it sound.
#![tactic(auto)]

mod placing;

ghost use Rattle.std.specs.Prelude.{◌≡◌};
ghost use Rattle.calendar.specs.Slots.{slot_of};
ghost use Rattle.store_layout.specs.Layout.{decode};
ghost use Rattle.synop.specs.Report.{report};
ghost use Rattle.rules.specs.Calls.{ask_file};
ghost use Rattle.engine_answers.specs.Good.{Good};
ghost use Rattle.engine_answers.specs.Replies.{reply, Did};
ghost use Rattle.engine_filing.specs.Places.{place};
ghost use Rattle.rules.specs.Step.{asked};

use crate::placing::{Filing, file_at};
use refusals::Refusal;
use store_soundness::find::find;
use synop::Report;
use synop::contents::Identification;

// Where a report lies: the index of its station, and its slot.
#[derive(Clone, Copy)]
pub struct Place {
    pub index: usize,
    pub slot: usize,
}

// The slot that a heading names on the store's day.
fn slot_in(store: &[u8], h: Identification) -> Option<usize>
    requires { Good store.now }
    ensures { result ≡ slot_of (decode store.now).year (decode store.now).month (decode store.now).day h.day h.hour }
{
    let date = store_numbers::entries::date_of(store);
    calendar::slot_of(date, u32::from(h.day), u32::from(h.hour))
}

// Where the report of a heading lies: refused 6, 7.
fn place_in(store: &[u8], h: Identification) -> Result<Place, Refusal>
    requires { Good store.now }
    ensures { result ≡ place (decode store.now) h }
{
    let index = find(store, h.station).ok_or(Refusal::UnknownStation)?;
    let slot = slot_in(store, h).ok_or(Refusal::NoSlot)?;
    Ok(Place { index, slot })
}

// A report of a rank, whatever its text holds. A `NIL` is accepted for any slot, whatever its rank and the slot's, and changes nothing.
pub fn file_in(store: &mut [u8], text: &[u8], rank: u8) -> Result<(), Refusal>
    requires { Good store.old }
    ensures { Did (asked (ask_file rank (report text.now)) (decode store.old) store.old) (reply result) store.new }
{
    let report = synop::read(text)?;
    match report {
        Report::Nil(h) => {
            place_in(store, h)?;
            Ok(())
        }
        Report::Whole(h, indicators, values) => {
            let place = place_in(store, h)?;
            let filing = Filing {
                rank,
                indicators,
                values,
            };
            file_at(store, place.index, place.slot, filing)
        }
    }
}
