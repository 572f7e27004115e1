// A line of the stored list run: its call made through the exported functions and compared.
#![tactic(auto)]

pub mod calls;
pub mod lines;
