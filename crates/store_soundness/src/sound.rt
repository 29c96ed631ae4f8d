// The test for an unsound store: document 01's "The store" up to "A buffer that breaks any of this is unsound".
ghost use Rattle.std.specs.Prelude.{◌≡◌};
ghost use Rattle.store_layout.specs.Sound.{sound};

use crate::stations::are_stations;
use store_numbers::at::{COUNT_AT, HEADER_LENGTH};
use store_numbers::header::is_header;
use store_numbers::read::word_at;

// Whether a buffer is a sound store.
pub fn is_sound(store: &[u8]) -> bool
    ensures { result ≡ sound store.now }
{
    if store.len() < HEADER_LENGTH {
        return false;
    }
    if !is_header(store) {
        return false;
    }
    let n = word_at(store, COUNT_AT) as usize;
    are_stations(store, n)
}
