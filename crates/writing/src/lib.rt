// Writing the answer of a rewrite: expressions and plans written flat into a work buffer.
#![tactic(auto)]

pub mod conjunction;
pub mod make_filter;
pub mod renames;
pub mod replace_cols_by_name;
