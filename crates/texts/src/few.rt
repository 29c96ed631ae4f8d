// Lists of fixed room that are copied.
ghost use Rattle.std.specs.Prelude.{◌≡◌, ◌≤◌, ◌<◌, ◌-◌, [], ◌∷◌, ◌++◌, length, take, OnOk, OnErr, IfErr};

use std::marker::Model;
use std::ops::DerefSlice;

// At most N values, which lie in the list itself and are copied with it. An `ArrayVec` drops what it holds, so that it is no `Copy`.
#[derive(Clone, Copy)]
pub struct Few<T, const N: usize> {
    cells: [T; N],
    len: usize,
}

impl<T, const N: usize> Model for Few<T, N> {
    ghost use Rattle.std.specs.Prelude.{◌≡◌, ◌≤◌, ◌++◌, length, take, drop};
    ghost use Rattle.std.proofs.Common.{arith, take-append-drop, length-take-le};
    ghost use Rattle.texts.specs.Few.{Few as Values, few_code};

    ghost Value = { Values T };

    ghost coded = { few_code T.code };

    ghost view = { λ s. record { items = take s.len s.cells; spare = drop s.len s.cells } };

    ghost invariant = { λ s. (s.len ≤ N) × (length s.cells ≡ N) };

    ghost inverse = { λ s. record { cells = s.items ++ s.spare; len = length s.items } };

    ghost inverse_ok = { λ s h i. record {
      cells = take-append-drop s.len s.cells i;
      len = length-take-le s.len s.cells (omega (arith, h.0, h.1)) i;
    } };
}

impl<T: Copy + Default, const N: usize> Few<T, N> {
    // An empty one.
    pub fn new() -> Self
        ensures { result.items ≡ [] }
    {
        Few {
            cells: Default::default(),
            len: 0,
        }
    }

    // Puts a value behind the others, where there is room.
    pub fn push(&mut self, x: T)
        requires { length self.old.items < N }
        ensures { self.new.items ≡ self.old.items ++ x ∷ [] }
    {
        self.cells[self.len] = x;
        self.len += 1;
    }

    // Puts a value behind the others, if there is room; else it comes back.
    pub fn try_push(&mut self, x: T) -> Result<(), T>
        ensures adds { self.new.items ≡ self.old.items ++ take (N - length self.old.items) (x ∷ []) }
        ensures room { OnOk result (length self.old.items < N) }
        ensures full { OnErr result (length self.old.items ≡ N) }
        ensures back { IfErr result (λ y. y ≡ x) }
    {
        if self.len == N {
            return Err(x);
        }
        self.push(x);
        Ok(())
    }

    // Takes all values out.
    pub fn clear(&mut self)
        ensures { self.new.items ≡ [] }
    {
        self.len = 0;
    }
}

impl<T, const N: usize> DerefSlice for Few<T, N> {
    type Elem = T;

    ghost deref_gives = { λ v xs. (xs ≡ v.items) × (length xs ≤ N) };

    fn deref(&self) -> &[T] {
        &self.cells[..self.len]
    }
}
