// The call row test: the meaning of a Filter's predicate on one row over its input's schema.
#![tactic(auto)]

pub mod schemas;
pub mod testing;
