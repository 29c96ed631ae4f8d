// Whether the stations of a store are sound, each by its entry and its block, by document 01's "The store". The room that n stations take is
// required, since it is the header that tells n, and is tested before.
ghost use Rattle.std.specs.Prelude.{◌≡◌, ◌&&◌, ◌-◌, ◌<◌, ◌≤◌, ltb, length};
ghost use Rattle.laws.specs.All.{all};
ghost use Rattle.store_layout.specs.Layout.{long, entry_at, store_length};
ghost use Rattle.store_layout.specs.Sound.{sound_station, sound_order};

use crate::blocks::is_block;
use store_fields::is_entry;
use store_numbers::at::{ROW_IN, SETTLED_IN, block_at, entry_at};
use store_numbers::read::{long_at, word_at};

// The station at index i of n, with a number above the one before.
fn is_station(store: &[u8], n: usize, i: usize, last: u32) -> bool
    requires { (store_length n ≤ length store.now) × (i < n) }
    ensures { result ≡ (ltb last (long store.now (entry_at i)) && sound_station store.now n i) }
{
    let at = entry_at(i);
    let settled = word_at(store, at + SETTLED_IN);
    if !is_entry(
        last,
        long_at(store, at),
        word_at(store, at + ROW_IN),
        settled,
    ) {
        return false;
    }
    is_block(store, block_at(n, i), settled)
}

// The n stations, each with a number above the one before: a loop, since each turn leaves its number to the next.
pub fn are_stations(store: &[u8], n: usize) -> bool
    requires { store_length n ≤ length store.now }
    ensures { result ≡ (all (sound_station store.now n) n && all (sound_order store.now) (n - 1)) }
{
    let mut last = 0;
    for i in 0..n {
        if !is_station(store, n, i, last) {
            return false;
        }
        last = long_at(store, entry_at(i));
    }
    true
}
