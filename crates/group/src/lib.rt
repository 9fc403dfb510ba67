// Many controllers together. All of this crate is in specs/, the group and what demand 3 says of it, and in proofs/, that it holds.
#![tactic(auto)]
