// Opening a store.
#![tactic(auto)]

mod fresh;
pub mod open;
