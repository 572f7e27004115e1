// push_down_filter.rs: a Filter is simplified, and merged with the Filter below it.
#![tactic(auto)]

pub mod filter;
pub mod scratch;
