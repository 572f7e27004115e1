// push_down_filter.rs: Join (169 to 770), its tables, what is decided about it, and the plan that is written for it.
#![tactic(auto)]

pub mod column_checker;
pub mod extract_or_clause;
pub mod infer_join_predicates;
pub mod lr_is_preserved;
pub mod push_down_all_join;
pub mod write_sides;
