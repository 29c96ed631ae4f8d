// A slot head: what a slot holds beside its cells. filed is 0 or 1; iR 0 to 4, else 5; tR 0 to 9; dd 0 to 36 or 99, else 100; the rank
// of the report that was filed, 0 for an ordinary one, 1 to 24 for CCA to CCX, 0 while unfiled; copy is the dd that a settling under way
// reads, 0 while there is none. They are numbers and no enums, since the store keeps each as a byte and any may lie in a store that is read.

// The highest rank, that of CCX.
pub const HIGHEST_RANK: u32 = 24;

#[derive(Clone, Copy)]
pub struct SlotHead {
    pub filed: u8,
    pub ir: u8,
    pub tr: u8,
    pub dd: u8,
    pub rank: u8,
    pub copy: u8,
}
