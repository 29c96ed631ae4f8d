// The calls' answers as numbers, for C and Rust. A day line's are the matter of `arrays`.
ghost use Rattle.std.specs.Prelude.{◌≡◌, [], ◌∷◌, pos};
ghost use Rattle.capi.specs.Numbers.{number, filling_number};
ghost use Rattle.engine_answers.specs.Replies.{reply};

use bulletin::Tally;
use quality::column::Cell;
use refusals::Refusal;
use vapour::LengthNeeded;

// What a call returns that is not refused.
pub const ACCEPTED: u32 = 0;

// The number of an answer without a value.
pub fn number_of(answer: Result<(), Refusal>) -> u32
    ensures { result ≡ number (reply answer) }
{
    match answer {
        Ok(()) => ACCEPTED,
        Err(refusal) => u32::from(refusal),
    }
}

// A checked cell: state, flag, value.
pub fn cell_numbers(c: Cell) -> [i32; 3]
    ensures { result ≡ pos c.state ∷ pos c.flag ∷ c.value ∷ [] }
{
    [i32::from(c.state), i32::from(c.flag), i32::from(c.value)]
}

// How many reports of a bulletin were accepted and refused.
pub fn count_numbers(t: Tally) -> [u32; 2]
    ensures { result ≡ t.accepted ∷ t.refused ∷ [] }
{
    [t.accepted, t.refused]
}

// 0 where the vapour table was filled, else the length needed.
pub fn filling_number(filling: Result<(), LengthNeeded>) -> u32
    ensures { result ≡ filling_number filling }
{
    match filling {
        Ok(()) => 0,
        Err(LengthNeeded(n)) => n,
    }
}
