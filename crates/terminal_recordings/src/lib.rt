//! What a bus monitor sees of one terminal, and whether a description explains it. Definitions, a decision, and laws.
#![tactic(auto)]

pub mod laws;
