// The warmest and the coldest slot. Which of the two is meant, and which slot counts on ties, are operands of one function, as they are of the
// rule's definitions.
ghost use Rattle.std.specs.Prelude.{◌≡◌, cond, ◌<◌};
ghost use Rattle.quality.specs.Cell.{slot};
ghost use Rattle.quality.specs.Coded.{cells};
ghost use Rattle.daily.specs.Extremes.{on_ties, utmost, warmest, coldest};
ghost use Rattle.daily.specs.Parts.{beyond, outdoes, ahead};

use quality::column::{Cell, Column};

// Which of several slots with the same temperature counts.
#[derive(Clone, Copy)]
pub enum Tie {
    Earliest,
    Latest,
}

// x is beyond y: warmer, or else colder.
fn beyond(warmer: bool, x: i16, y: i16) -> bool
    ensures { result ≡ beyond warmer x y }
{
    if warmer { y < x } else { x < y }
}

// x, of a later slot than y, counts before it.
fn outdoes(tie: Tie, warmer: bool, x: i16, y: i16) -> bool
    ensures { result ≡ outdoes tie warmer x y }
{
    match tie {
        Tie::Earliest => beyond(warmer, x, y),
        Tie::Latest => !beyond(warmer, y, x),
    }
}

// x, of a later slot than y, is there, and y is missing or outdone.
fn ahead(tie: Tie, warmer: bool, x: Cell, y: Cell) -> bool
    ensures { result ≡ ahead tie warmer x y }
{
    !x.is_missing() & (y.is_missing() | outdoes(tie, warmer, x.value, y.value))
}

// Slot k where it is ahead of the best before it, else that one.
fn better(tie: Tie, warmer: bool, t: Column, best: usize, k: usize) -> usize
    requires best_bound { best < 9 }
    requires k_bound { k < 9 }
    ensures { result ≡ cond (ahead tie warmer (slot (cells t) k) (slot (cells t) best)) k best }
{
    if ahead(tie, warmer, t.at(k), t.at(best)) {
        k
    } else {
        best
    }
}

// The warmest slot among 0 to 7, or else the coldest: the earliest or the latest on ties.
pub fn extreme(tie: Tie, warmer: bool, t: Column) -> Option<usize>
    ensures { result ≡ on_ties tie (utmost (beyond warmer) (cells t)) 8 }
{
    let best = (1..8).fold(0, |best, k| better(tie, warmer, t, best, k));
    if t.at(best).is_missing() {
        None
    } else {
        Some(best)
    }
}

// The warmest slot: of several the latest.
pub fn warmest(t: Column) -> Option<usize>
    ensures { result ≡ warmest (cells t) }
{
    extreme(Tie::Latest, true, t)
}

// The coldest slot: of several the earliest.
pub fn coldest(t: Column) -> Option<usize>
    ensures { result ≡ coldest (cells t) }
{
    extreme(Tie::Earliest, false, t)
}
