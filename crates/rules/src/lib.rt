// The rules of the calls as definitions (specs/), and proved of them (proofs/) demand 3, whom a text names, that a refusal changes no byte,
// what settling in portions comes to, that the byte form of a store does not show, and the proof table. There is no code here but functions whose contracts are the theorems, so
// that the check fails where a theorem is gone.
#![tactic(auto)]

ghost use Rattle.store_layout.specs.Form.{AnyTwoForms};
ghost use Rattle.rules.specs.Forms.{SameCalls};
ghost use Rattle.rules.specs.Isolation.{Isolated};
ghost use Rattle.rules.specs.Naming.{NamedByText};
ghost use Rattle.rules.specs.Portions.{AtOnce, InPortions};
ghost use Rattle.rules.specs.ProofTable.{ProofTable};
ghost use Rattle.rules.specs.Refusals.{RefusalsKeep};
ghost use Rattle.rules.specs.Step.{step};

// What other stations' calls bring, and when, never shows in a station's records or answers.
pub fn isolated()
    ensures { Isolated step }
{}

// Whom a filed text names, at any rank.
pub fn named_by_text()
    ensures { NamedByText }
{}

// A refusal changes no byte.
pub fn refusals_keep()
    ensures { RefusalsKeep step }
{}

// Settle leaves the bytes that begin and four steps leave.
pub fn at_once()
    ensures { AtOnce step }
{}

// A settling in portions ends in what the raw cells and dd at begin give, whatever calls are made in between.
pub fn in_portions()
    ensures { InPortions step }
{}

// In any two byte forms of a store each call gives the same answer and leaves corresponding stores.
pub fn same_calls()
    ensures { AnyTwoForms SameCalls }
{}

// The lines of document 01's proof table hold of the rules.
pub fn proof_table()
    ensures { ProofTable }
{}
