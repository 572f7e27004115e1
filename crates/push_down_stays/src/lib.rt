// Whether PushDownFilter::rewrite leaves a plan as it is, decided by reading alone.
#![tactic(auto)]

pub mod stays;
