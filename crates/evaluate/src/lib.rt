// The value of an expression on a row, in three-valued logic.
#![tactic(auto)]

pub mod cells;
pub mod comparing;
pub mod expressions;
pub mod logic;
pub mod operands;
