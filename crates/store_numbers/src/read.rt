// Numbers of the store: big-endian words of two bytes and of four.
ghost use Rattle.std.specs.Prelude.{◌≡◌, ◌+◌, ◌<◌, length};
ghost use Rattle.store_layout.specs.Layout.{word, long};

// The word at a position.
pub fn word_at(store: &[u8], at: usize) -> u16
    requires { at + 1 < length store.now }
    ensures { result ≡ word store.now at }
{
    u16::from_be_bytes([store[at], store[at + 1]])
}

// The number of four bytes at a position.
pub fn long_at(store: &[u8], at: usize) -> u32
    requires { at + 3 < length store.now }
    ensures { result ≡ long store.now at }
{
    u32::from_be_bytes([store[at], store[at + 1], store[at + 2], store[at + 3]])
}
