// The store's header and station entries: the date, a station's climate row and settled number, and its block. That the store is framed and that
// it has a station at the index are two facts, of the store alone and of both: `engine_answers` has the record of them for the calls.
ghost use Rattle.std.specs.Prelude.{◌≡◌, ◌+◌, ◌<◌, ◌≤◌, length};
ghost use Rattle.store_layout.specs.Model.{station_at};
ghost use Rattle.store_layout.specs.Layout.{word, count_at, header_length, block_length, block_at, decode_block, decode};
ghost use Rattle.store_layout.specs.Framed.{Framed};
ghost use Rattle.store_numbers.specs.Marked.{Marked};

use crate::at::{
    BLOCK_LENGTH, COUNT_AT, DAY_AT, MONTH_AT, ROW_IN, SETTLED_IN, YEAR_AT, block_at, entry_at,
};
use crate::read::word_at;
use crate::write::put_word;
use calendar::Date;

// The date D of the store, which has room for a header, as indices into one require.
#[tactic(auto, unfolding(store_layout::specs::Layout::decode))]
pub fn date_of(store: &[u8]) -> Date
    requires { header_length ≤ length store.now }
    ensures { (result.year ≡ (decode store.now).year) × (result.month ≡ (decode store.now).month) × (result.day ≡ (decode store.now).day) }
{
    Date {
        year: word_at(store, YEAR_AT) as u32,
        month: word_at(store, MONTH_AT) as u32,
        day: word_at(store, DAY_AT) as u32,
    }
}

// The climate row of the station at an index.
#[tactic(auto, using(store_layout::proofs::Stores::station_of_bytes), unfolding(store_layout::specs::Layout::decode_station))]
pub fn row_of(store: &[u8], index: usize) -> u16
    requires { Framed store.now × (index < word store.now count_at) }
    ensures { result ≡ (station_at (decode store.now).stations index).row }
{
    word_at(store, entry_at(index) + ROW_IN)
}

// The settled number of the station at an index.
#[tactic(auto, using(store_layout::proofs::Stores::station_of_bytes), unfolding(store_layout::specs::Layout::decode_station))]
pub fn settled_of(store: &[u8], index: usize) -> u16
    requires { Framed store.now × (index < word store.now count_at) }
    ensures { result ≡ (station_at (decode store.now).stations index).settled }
{
    word_at(store, entry_at(index) + SETTLED_IN)
}

// Another settled number of the station at an index.
pub fn set_settled(store: &mut [u8], index: usize, settled: u16)
    requires { Framed store.old × (index < word store.old count_at) }
    ensures { Marked store.old index settled store.new }
{
    put_word(store, entry_at(index) + SETTLED_IN, settled);
}

// Where the block of the station at an index begins.
pub fn block_start(store: &[u8], index: usize) -> usize
    requires { Framed store.now × (index < word store.now count_at) }
    ensures { (result ≡ block_at (word store.now count_at) index) × (result + block_length ≤ length store.now) }
{
    block_at(word_at(store, COUNT_AT) as usize, index)
}

// The block of the station at an index.
pub fn block_of(store: &[u8], index: usize) -> &[u8; BLOCK_LENGTH]
    requires { Framed store.now × (index < word store.now count_at) }
    ensures { decode_block result.now ≡ (station_at (decode store.now).stations index).block }
{
    let at = block_start(store, index);
    store[at..at + BLOCK_LENGTH].as_array().unwrap()
}
