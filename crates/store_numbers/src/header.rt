// Whether a store's header is sound, by document 01's "The store".
ghost use Rattle.std.specs.Prelude.{◌≡◌, ◌≤◌, length};
ghost use Rattle.store_layout.specs.Layout.{header_length};
ghost use Rattle.store_layout.specs.Sound.{sound_header};

use crate::at::{
    BLOCK_LENGTH, BLOCK_LENGTH_AT, BLOCK_OFFSET_AT, COUNT_AT, HEADER_LENGTH, LIST_OFFSET_AT,
    MOST_STATIONS, ZERO_AT, block_at, store_length,
};
use crate::entries::date_of;
use crate::read::word_at;
use calendar::is_date;

// The header, for which there is room, as indices into it require, and that the buffer has the length that its count of stations asks.
#[tactic(auto, unfolding(store_layout::specs::Sound::sound_header, store_layout::specs::Layout::decode))]
pub fn is_header(store: &[u8]) -> bool
    requires { header_length ≤ length store.now }
    ensures { result ≡ sound_header store.now }
{
    let n = word_at(store, COUNT_AT) as usize;
    let size = store_length(n);
    let blocks = block_at(n, 0);
    (1 <= n)
        & (n <= MOST_STATIONS)
        & (store.len() == size)
        & (word_at(store, LIST_OFFSET_AT) as usize == HEADER_LENGTH)
        & (word_at(store, BLOCK_OFFSET_AT) as usize == blocks)
        & (word_at(store, BLOCK_LENGTH_AT) as usize == BLOCK_LENGTH)
        & is_date(date_of(store))
        & (word_at(store, ZERO_AT) == 0)
}
