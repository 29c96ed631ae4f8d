// Which buffers are sound stores, and where a station lies in one.
#![tactic(auto)]

mod blocks;
pub mod find;
pub mod sound;
mod stations;
