// Equal predicates found by comparing 32-bit words, and fingerprints before that: proved, and called by nothing yet.
#![tactic(auto)]

pub mod equality;
pub mod fingerprints;
