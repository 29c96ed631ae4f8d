// The store as definitions (specs/), and the laws between them (proofs/): the model, its byte layout, which buffers are sound. There is no code here.
#![tactic(auto)]
