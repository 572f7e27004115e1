// src/simplify_expressions of the source, file by file: predicates on one column simplified together, cheap ones put first.
#![tactic(auto)]

pub mod reorder_predicates;
pub mod simplify_predicates;
