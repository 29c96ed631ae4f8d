// The search for a station, by its number.
ghost use Rattle.std.specs.Prelude.{◌≡◌};
ghost use Rattle.store_layout.specs.Layout.{decode};
ghost use Rattle.store_layout.specs.Framed.{Framed};
ghost use Rattle.store_layout.specs.Index.{index_in, numbers};
ghost use Rattle.store_soundness.specs.Located.{placed, located};

use crate::sound::is_sound;
use refusals::Refusal;
use store_numbers::at::{COUNT_AT, entry_at};
use store_numbers::read::{long_at, word_at};

// A station's index in a store that is known to be sound; its frame is enough.
pub fn find(store: &[u8], station: u32) -> Option<usize>
    requires { Framed store.now }
    ensures { result ≡ placed (index_in (numbers (decode store.now)) station) }
{
    let n = word_at(store, COUNT_AT) as usize;
    (0..n).find(|&i| long_at(store, entry_at(i)) == station)
}

// Soundness and search in one answer: refused 9, 6.
#[tactic(auto, unfolding(crate::specs::Located::located))]
pub fn locate(store: &[u8], station: u32) -> Result<usize, Refusal>
    ensures { result ≡ located store.now station }
{
    if !is_sound(store) {
        return Err(Refusal::Unsound);
    }
    find(store, station).ok_or(Refusal::UnknownStation)
}
