// The definitions (specs/) and the theory (proofs/) of synchronization graphs. This crate has no code.
#![tactic(auto)]
