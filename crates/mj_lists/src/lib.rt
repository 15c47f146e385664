//! Plain lists and numbers: what the kit's library lacks and several crates need. There is no code here; `specs/` has lists that
//! lie in a fixed number of places, and `proofs/` has the lemmas.
#![tactic(auto)]
