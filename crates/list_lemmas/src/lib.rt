//! What the other crates use of lists in general: a word for some of a list, one for a list of all
//! there is, and lemmas for their proofs.
#![tactic(auto)]
