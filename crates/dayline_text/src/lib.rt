// What the program `dayline` reads, in pieces and over slices: its first line, and the cut of its reports; and what it prints.
#![tactic(auto)]

pub mod cut;
pub mod first_line;
pub mod input;
pub mod print;
