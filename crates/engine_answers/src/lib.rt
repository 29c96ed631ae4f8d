// What the calls answer, in the terms of the papers (specs/), and laws on a store known to be sound (proofs/). The
// settled number is the matter of `numbers`.
// The store and a station's index in it are handed on as two parameters with one fact of both, `StationAt`: the store is lent as `&mut`, and
// its part is lent on, so that a struct of the two would be made anew for each call.
#![tactic(auto)]

pub mod numbers;

ghost use Rattle.store_layout.specs.Form.{AnyTwoForms};
ghost use Rattle.engine_answers.specs.Forms.{SameOpens};

// In any two byte forms of a store an open gives the same answer and, accepted, leaves corresponding stores.
pub fn same_opens()
    ensures { AnyTwoForms SameOpens }
{}
