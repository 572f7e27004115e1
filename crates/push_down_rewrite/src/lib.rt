// push_down_filter.rs: PushDownFilter::rewrite (785 to 1264) at one record of an image.
#![tactic(auto)]

pub mod filter;
pub mod input;
pub mod node;
