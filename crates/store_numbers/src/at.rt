// Where things lie in the store, in bytes: the code's names for the definitions of store_layout's Layout.antt.
ghost use Rattle.std.specs.Prelude.{◌≡◌, ◌≤◌, length};
ghost use Rattle.store_layout.specs.Layout.{entry_at, block_at, store_length};
ghost use Rattle.store_numbers.specs.Room.{room};

// The header, and in it the count of stations, the two offsets, the block length, the date and the last number.
pub const HEADER_LENGTH: usize = 16;

pub const COUNT_AT: usize = 0;

pub const LIST_OFFSET_AT: usize = 2;

pub const BLOCK_OFFSET_AT: usize = 4;

pub const BLOCK_LENGTH_AT: usize = 6;

pub const YEAR_AT: usize = 8;

pub const MONTH_AT: usize = 10;

pub const DAY_AT: usize = 12;

pub const ZERO_AT: usize = 14;

// A station's entry, which begins with its number, and in it its climate row and settled number.
pub const ENTRY_LENGTH: usize = 8;

pub const ROW_IN: usize = 4;

pub const SETTLED_IN: usize = 6;

// A slot head, which begins with filed, and in it iR, tR, dd, the rank and the copy of dd.
pub const HEAD_LENGTH: usize = 6;

pub const IR_IN: usize = 1;

pub const TR_IN: usize = 2;

pub const DD_IN: usize = 3;

pub const RANK_IN: usize = 4;

pub const COPY_IN: usize = 5;

// A cell, which begins with its state, and in it its flag and value.
pub const CELL_LENGTH: usize = 4;

pub const FLAG_IN: usize = 1;

pub const VALUE_IN: usize = 2;

// A station's block: nine slot heads, then the raw and the checked cells, in each nine slots of nine cells.

pub const SLOT_LENGTH: usize = CELL_LENGTH * 9;

pub const RAW_FROM: usize = HEAD_LENGTH * 9;

pub const CHECKED_FROM: usize = RAW_FROM + SLOT_LENGTH * 9;

pub const BLOCK_LENGTH: usize = CHECKED_FROM + SLOT_LENGTH * 9;

// What a station adds to a store's length, how many there may be, and the length of the longest store.
pub const STATION_LENGTH: usize = ENTRY_LENGTH + BLOCK_LENGTH;

pub const MOST_STATIONS: usize = 32;

pub const LONGEST_STORE: usize = HEADER_LENGTH + STATION_LENGTH * MOST_STATIONS;

// Where the entry of the station at index i begins.
pub fn entry_at(i: usize) -> usize
    requires { entry_at i ≤ room }
    ensures { result ≡ entry_at i }
{
    HEADER_LENGTH + ENTRY_LENGTH * i
}

// Where the block of the station at index i of n begins.
pub fn block_at(n: usize, i: usize) -> usize
    requires { block_at n i ≤ room }
    ensures { result ≡ block_at n i }
{
    HEADER_LENGTH + ENTRY_LENGTH * n + BLOCK_LENGTH * i
}

// The length of a store of n stations.
pub fn store_length(n: usize) -> usize
    requires { store_length n ≤ room }
    ensures { result ≡ store_length n }
{
    block_at(n, n)
}

// Room for a store of 32 stations.
pub fn store_space() -> [u8; LONGEST_STORE]
    ensures { store_length 32 ≡ length result }
{
    [0; LONGEST_STORE]
}
