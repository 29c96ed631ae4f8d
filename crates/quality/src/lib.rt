// The checks of document 01's "Settling a station": their rules in specs/, a cell through each step, and the table of
// limits. `quality_columns` and `quality_steps` take a column and a station's nine columns through all four.
#![tactic(auto)]

pub mod column;
pub mod head;
pub mod internal;
pub mod limits;
pub mod range;
pub mod rows;
pub mod step;
pub mod time;
mod value;
