// What the arms of push_down_filter.rs share: the predicate of a Filter, what an arm answers, the inputs of a plan, and lists of conjuncts
// parted.
#![tactic(auto)]

pub mod inputs;
pub mod parting;
pub mod predicates;
