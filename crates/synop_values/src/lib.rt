// What a SYNOP report's codes and figures mean: the code tables, and the values that the groups of a report give.
#![tactic(auto)]

pub mod codes;
pub mod figures;
