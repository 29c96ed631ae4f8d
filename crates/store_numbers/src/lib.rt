// A store's buffer: where things lie in it; its numbers, slot heads, cells and entries read and written; and whether its header is sound. Each
// position requires room behind it, as an index does: a part of the store cut out first would require the same of its ends.
#![tactic(auto)]

pub mod area;
pub mod at;
mod cell;
pub mod entries;
pub mod head;
pub mod header;
pub mod read;
pub mod write;
