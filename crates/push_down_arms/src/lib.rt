// push_down_filter.rs: the arms of the match on a Filter's input (835 to 1263), but Filter and Join.
#![tactic(auto)]

pub mod aggregate;
pub mod contain;
pub mod projection;
pub mod push_some;
pub mod replaced;
pub mod subquery_alias;
pub mod table_scan;
pub mod through;
pub mod union;
pub mod window;
pub mod with_filters;
