// utils.rs: the columns of an expression and of a schema, as 64-bit sets of fields.
#![tactic(auto)]

pub mod has_all_column_refs;
pub mod schema_columns;
pub mod sets;
