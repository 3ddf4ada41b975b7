//! Lemmas about the texts of JSON, for the proofs of the crates that write some: tokens that are
//! printed, with gaps between them or none, are read back, though a newline stands behind them.
#![tactic(auto)]
