// The laws of the controller's step. All of this crate is in specs/, the ways that a step can go, and in proofs/, what holds of them.
#![tactic(auto)]
