// The bytes of a text: one searched, and bytes written behind a text of fixed room.
ghost use Rattle.std.specs.Prelude.{◌≡◌, ◌==◌, [], ◌∷◌};
ghost use Rattle.std.specs.List.{position};
ghost use Rattle.texts.specs.Written.{Adds};

use arrayvec::ArrayVec;

// ---- reading

// Where a byte stands first. One call of std, as `calendar::place_of` is: a function for both would be std's own.
pub fn find(s: &[u8], b: u8) -> Option<usize>
    ensures { result ≡ position (λ x. x == b) s.now }
{
    s.iter().position(|&x| x == b)
}

// ---- writing: behind the text that is there, as far as there is room

// Puts a byte behind the text, if there is room.
pub fn put<const N: usize>(text: &mut ArrayVec<u8, N>, b: u8)
    ensures { Adds N text.old.items text.new.items (b ∷ []) }
{
    let _full = text.try_push(b);
}

// The same of a run of bytes.
pub fn put_all<const N: usize>(text: &mut ArrayVec<u8, N>, s: &[u8])
    ensures { Adds N text.old.items text.new.items s.now }
{
    let room = text.remaining_capacity().min(s.len());
    let _full = text.try_extend_from_slice(&s[..room]);
}
