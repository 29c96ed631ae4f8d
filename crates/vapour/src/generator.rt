// Document 02, S-1: the table's numbers from document 01's recurrence, so that a caller sees where they come from.
ghost use Rattle.vapour.specs.Generator.{Generated};

use crate::recurrence::entry_at;
use crate::{LengthNeeded, PLACES};

// Fills a slice of 1001 numbers with the entries, that of the dew point −500 tenths first. A slice of another length is
// left as it was, and the error is the length needed.
#[tactic(auto, using(crate::proofs::FilledSlice::untouched))]
pub fn fill(entries: &mut [u16]) -> Result<(), LengthNeeded>
    ensures { Generated entries.old result entries.new }
{
    if entries.len() != PLACES {
        return Err(LengthNeeded(PLACES as u32));
    }
    for (index, entry) in entries.iter_mut().enumerate() {
        *entry = entry_at(index as u64);
    }
    Ok(())
}
