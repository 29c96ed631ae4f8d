// The answers as numbers and arrays, as C gets them.
#![tactic(auto)]

pub mod arrays;
pub mod numbers;
