// Numbers, lines, counts and refusals written as text.
#![tactic(auto)]

pub mod lines;
pub mod numbers;
