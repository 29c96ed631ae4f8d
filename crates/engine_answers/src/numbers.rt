// A station's settled number: the step that is due at it, and what a step and an accepted report make of it. It is a number, as the store
// keeps it, and any may lie in a store that is read.
ghost use Rattle.std.specs.Prelude.{◌≡◌, ◌<◌};
ghost use Rattle.rules.specs.Rules as rules;
ghost use Rattle.rules.specs.Rules.{onward};

use quality::step::Step;

// The step that is due at a settled number: a table of the paper.
pub fn due(settled: u16) -> Step
    ensures { result ≡ rules.due settled }
{
    match settled {
        2 | 6 => Step::Range,
        3 | 7 => Step::Internal,
        4 | 8 => Step::Time,
        _ => Step::Fill,
    }
}

// The settled number after a step: a table of the paper.
pub fn number_after(step: Step, settled: u16) -> u16
    requires { settled < 10 }
    ensures { result ≡ onward step settled }
{
    match (step, settled) {
        (Step::Fill, 5) => 1,
        (Step::Fill, _) => 0,
        _ => settled + 1,
    }
}

// The settled number once a report was accepted: none is settled any more, and a settling under way goes on.
pub fn reported(settled: u16) -> u16
    requires { settled < 10 }
    ensures { result ≡ rules.reported settled }
{
    if settled < 2 {
        return 0;
    }
    if settled < 6 {
        return settled + 4;
    }
    settled
}
