// The bytes of a fresh store: the header, the stations' entries, and their empty blocks. What is laid requires room for it, as an index does; stations and
// rows are two slices, as C hands them over.
ghost use Rattle.std.specs.Prelude.{◌≡◌, true, ◌++◌, ◌+◌, ◌≤◌, length, get_or};
ghost use Rattle.std.proofs.lemmas.List.Edits.{sets};
ghost use Rattle.store_layout.specs.Model.{unfiled, empty_block};
ghost use Rattle.store_layout.specs.Layout.{header_length, entry_length, block_length, raw_from, entry_at, block_at, store_length, word_bytes, long_bytes, pieces, encode_head, encode_block, encode};
ghost use Rattle.store_layout.specs.Opening.{openable, fresh};

use calendar::Date;
use store_numbers::at::{
    BLOCK_LENGTH, HEAD_LENGTH, HEADER_LENGTH, RAW_FROM, ROW_IN, SETTLED_IN, block_at, entry_at,
};
use store_numbers::head::{put_head, unfiled};
use store_numbers::write::{put_long, put_word, put_zeros};

// The eight words of the header.
fn put_header(store: &mut [u8], words: [u16; 8])
    requires { header_length ≤ length store.old }
    ensures { store.new ≡ sets store.old 0 (pieces 8 (λ k. word_bytes (get_or words k 0))) }
{
    for (k, &word) in words.iter().enumerate() {
        put_word(store, 2 * k, word);
    }
}

// A station's entry, unsettled.
fn put_entry(store: &mut [u8], at: usize, number: u32, row: u16)
    requires { at + entry_length ≤ length store.old }
    ensures { store.new ≡ sets store.old at (long_bytes number ++ (word_bytes row ++ word_bytes 0)) }
{
    put_long(store, at, number);
    put_word(store, at + ROW_IN, row);
    put_word(store, at + SETTLED_IN, 0);
}

// All stations' entries.
fn put_entries(store: &mut [u8], stations: &[u32], rows: &[u16])
    requires { (length rows.now ≡ length stations.now) × (entry_at (length stations.now) ≤ length store.old) }
    ensures { store.new ≡ sets store.old header_length (pieces (length stations.now) (λ i. long_bytes (get_or stations.now i 0) ++ (word_bytes (get_or rows.now i 0) ++ word_bytes 0))) }
{
    for (i, (&number, &row)) in stations.iter().zip(rows).enumerate() {
        put_entry(store, entry_at(i), number, row);
    }
}

// Nine unfiled slot heads. Over their places: what is laid is the same at each, and in no slice to go over.
fn put_heads(store: &mut [u8], at: usize)
    requires { at + raw_from ≤ length store.old }
    ensures { store.new ≡ sets store.old at (pieces 9 (λ k. encode_head unfiled)) }
{
    for k in 0..9 {
        put_head(store, at + HEAD_LENGTH * k, unfiled());
    }
}

// An empty block: unfiled heads, and missing cells.
fn put_block(store: &mut [u8], at: usize)
    requires { at + block_length ≤ length store.old }
    ensures { store.new ≡ sets store.old at (encode_block empty_block) }
{
    put_heads(store, at);
    put_zeros(store, at + RAW_FROM, BLOCK_LENGTH - RAW_FROM);
}

// The empty blocks of n stations, over their places as the heads.
fn put_blocks(store: &mut [u8], n: usize)
    requires { store_length n ≤ length store.old }
    ensures { store.new ≡ sets store.old (block_at n 0) (pieces n (λ i. encode_block empty_block)) }
{
    for i in 0..n {
        put_block(store, block_at(n, i));
    }
}

// All bytes of a fresh store.
pub fn put_fresh(store: &mut [u8], date: Date, stations: &[u32], rows: &[u16])
    requires { openable (length store.old) date.year date.month date.day stations.now rows.now ≡ true }
    ensures { store.new ≡ encode (fresh date.year date.month date.day stations.now rows.now) }
{
    let n = stations.len();
    let words = [
        n as u16,
        HEADER_LENGTH as u16,
        block_at(n, 0) as u16,
        BLOCK_LENGTH as u16,
        date.year as u16,
        date.month as u16,
        date.day as u16,
        0,
    ];
    put_header(store, words);
    put_entries(store, stations, rows);
    put_blocks(store, n);
}
