// Why a call is refused: the README's table of refusals, as an enum.
#![tactic(auto)]

ghost use Rattle.std.specs.Prelude.{◌≡◌};
ghost use Rattle.refusals.specs.Refusals as refusals;

// In the order of their numbers, 1 to 14; a number is made of one by `From`.
#[derive(Clone, Copy)]
pub enum Refusal {
    // A report is empty or above 512 bytes, or its `=` is absent, early or not last. A bulletin is empty or above 16384 bytes.
    Unended,
    // A byte that no report has.
    UnknownByte,
    // A group without its shape, the first not `AAXX`, `NIL` not fourth and last.
    Shape,
    // YY, GG, iw or IIiii out of range.
    OutOfRange,
    // Too few groups, or their order.
    Order,
    // The station is not in the store.
    UnknownStation,
    // No slot of the day has that day and hour.
    NoSlot,
    // The slot is filed already with this rank.
    Filed,
    // The store is unsound.
    Unsound,
    // A store cannot be opened for this date and these stations.
    Unopenable,
    // The station is not settled.
    NotSettled,
    // An element or slot above 8.
    NoCell,
    // The rank is above 24, or below that of the report in the slot.
    Rank,
    // No settling of the station is under way.
    NotUnderWay,
}

impl From<Refusal> for u32 {
    ghost from_gives = { λ r n. n ≡ refusals.number r };

    fn from(r: Refusal) -> u32 {
        // Each arm is a line of the table of refusals.
        match r {
            Refusal::Unended => 1,
            Refusal::UnknownByte => 2,
            Refusal::Shape => 3,
            Refusal::OutOfRange => 4,
            Refusal::Order => 5,
            Refusal::UnknownStation => 6,
            Refusal::NoSlot => 7,
            Refusal::Filed => 8,
            Refusal::Unsound => 9,
            Refusal::Unopenable => 10,
            Refusal::NotSettled => 11,
            Refusal::NoCell => 12,
            Refusal::Rank => 13,
            Refusal::NotUnderWay => 14,
        }
    }
}
