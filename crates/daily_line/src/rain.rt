// The day's rain from R and the slot heads. A slot is an index into nine, and is required below 9 as one.
ghost use Rattle.std.specs.Prelude.{cond, ◌≡◌, ◌<◌};
ghost use Rattle.quality.specs.Coded.{cells};
ghost use Rattle.daily_line.specs.RainParts.{Small};
ghost use Rattle.daily.specs.Rain as Rule;

use quality::column::Column;
use quality::head::SlotHead;

// The head of slot k: its iR and tR.
fn head_at(heads: [SlotHead; 9], k: usize) -> SlotHead
    requires { k < 9 }
    ensures { (result.ir ≡ Rule.i_r heads k) × (result.tr ≡ Rule.t_r heads k) }
{
    heads[k]
}

// R of slot k.
fn amount_at(r: Column, k: usize) -> Option<i32>
    requires { k < 9 }
    ensures amount { result ≡ Rule.amount (cells r) k }
    ensures small { Small 1 result }
{
    let cell = r.at(k);
    if cell.is_missing() {
        return None;
    }
    Some(i32::from(cell.value))
}

// Two amounts added: missing where one is.
fn together(a: Option<i32>, b: Option<i32>) -> Option<i32>
    requires first { Small 2 a }
    requires second { Small 2 b }
    ensures { result ≡ Rule.together a b }
{
    Some(a? + b?)
}

// The amount b that ends a dry half or, where that is 0, the amount a of six hours before.
fn unless_nothing(a: Option<i32>, b: Option<i32>) -> Option<i32>
    ensures { result ≡ cond (Rule.is_nothing b) a b }
{
    match b {
        Some(0) => a,
        _ => b,
    }
}

// A half of the day: the slot that ends it with tR 2, else that and the slot six hours before, both with tR 1. Where the slot that ends it
// has iR 3, R 0 and tR 2, a shower of six hours before still counts.
#[tactic(auto, unfolding(daily::specs::Rain::half))]
fn half(heads: [SlotHead; 9], r: Column, first: usize, last: usize) -> Option<i32>
    requires first_bound { first < 9 }
    requires last_bound { last < 9 }
    ensures half { result ≡ Rule.half heads (cells r) first last }
    ensures small { Small 2 result }
{
    let before = head_at(heads, first);
    let end = head_at(heads, last);
    let a = amount_at(r, first);
    let b = amount_at(r, last);
    if end.tr == 2 {
        if end.ir == 3 && before.tr == 1 {
            return unless_nothing(a, b);
        }
        return b;
    }
    if before.tr == 1 && end.tr == 1 {
        return together(a, b);
    }
    None
}

// R of slot 8 with tR 4, else the two halves.
#[tactic(auto, unfolding(daily::specs::Rain::rain_total))]
pub fn rain_total(heads: [SlotHead; 9], r: Column) -> Option<i32>
    ensures { result ≡ Rule.rain_total heads (cells r) }
{
    let end = head_at(heads, 8);
    if end.tr == 4 {
        return amount_at(r, 8);
    }
    together(half(heads, r, 2, 4), half(heads, r, 6, 8))
}
