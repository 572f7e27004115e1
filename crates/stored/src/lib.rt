// A line of the stored list taken apart into its numbers; outputs compared with what it stores.
#![tactic(auto)]

pub mod numbers;
pub mod outputs;
