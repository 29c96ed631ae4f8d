// Texts of bytes: what is put into one of fixed room, where a byte is found, and numbers written in decimal digits; and lists of fixed
// room that are copied.
#![tactic(auto)]

pub mod bytes;
pub mod few;
pub mod numbers;
