// Bytes and numbers stored from a position on: nothing else of the buffer differs.
ghost use Rattle.std.specs.Prelude.{◌≡◌, ◌+◌, ◌≤◌, length, replicate};
ghost use Rattle.std.proofs.lemmas.List.Edits.{sets};
ghost use Rattle.store_layout.specs.Layout.{word_bytes, long_bytes};

// Bytes side by side.
pub fn put_bytes(store: &mut [u8], at: usize, bytes: &[u8])
    requires { at + length bytes.now ≤ length store.old }
    ensures { store.new ≡ sets store.old at bytes.now }
{
    store[at..at + bytes.len()].copy_from_slice(bytes);
}

// A word, its high byte first.
pub fn put_word(store: &mut [u8], at: usize, word: u16)
    requires { at + 2 ≤ length store.old }
    ensures { store.new ≡ sets store.old at (word_bytes word) }
{
    put_bytes(store, at, &word.to_be_bytes());
}

// A number of four bytes, the highest one first. It is `put_word` at another width: one expression each, and no trait of std has `to_be_bytes`.
pub fn put_long(store: &mut [u8], at: usize, number: u32)
    requires { at + 4 ≤ length store.old }
    ensures { store.new ≡ sets store.old at (long_bytes number) }
{
    put_bytes(store, at, &number.to_be_bytes());
}

// A run of n zeros.
pub fn put_zeros(store: &mut [u8], at: usize, n: usize)
    requires { at + n ≤ length store.old }
    ensures { store.new ≡ sets store.old at (replicate n 0) }
{
    store[at..at + n].fill(0);
}
