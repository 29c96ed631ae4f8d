// A station's block of the store, read and written. Its entry is the matter of `store_numbers::entries`.
#![tactic(auto)]

pub mod block;
