// A slot head in the store, read and written.
ghost use Rattle.std.specs.Prelude.{◌≡◌, ◌+◌, ◌≤◌, length};
ghost use Rattle.std.proofs.lemmas.List.Edits.{sets};
ghost use Rattle.store_layout.specs.Layout.{head_length, decode_head, encode_head};
ghost use Rattle.store_layout.specs.Model as model;

use crate::at::{COPY_IN, DD_IN, IR_IN, RANK_IN, TR_IN};
use crate::write::put_bytes;
use quality::head::SlotHead;

// The head at a position.
#[tactic(auto, unfolding(store_layout::specs::Layout::decode_head))]
pub fn head_at(store: &[u8], at: usize) -> SlotHead
    requires { at + head_length ≤ length store.now }
    ensures { result ≡ decode_head store.now at }
{
    SlotHead {
        filed: store[at],
        ir: store[at + IR_IN],
        tr: store[at + TR_IN],
        dd: store[at + DD_IN],
        rank: store[at + RANK_IN],
        copy: store[at + COPY_IN],
    }
}

// Another head there.
#[tactic(auto, unfolding(store_layout::specs::Layout::encode_head))]
pub fn put_head(store: &mut [u8], at: usize, h: SlotHead)
    requires { at + head_length ≤ length store.old }
    ensures { store.new ≡ sets store.old at (encode_head h) }
{
    put_bytes(store, at, &[h.filed, h.ir, h.tr, h.dd, h.rank, h.copy]);
}

// The head of a slot that no report was filed in.
pub fn unfiled() -> SlotHead
    ensures { result ≡ model.unfiled }
{
    SlotHead {
        filed: 0,
        ir: 5,
        tr: 0,
        dd: 100,
        rank: 0,
        copy: 0,
    }
}
