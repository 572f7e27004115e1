// The pass: the rewrite at each plan of an accepted image in turn, as far as a budget of visits goes.
#![tactic(auto)]

pub mod visits;
