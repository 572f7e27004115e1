// Fields, found by a search over the records of an image: how many a question finds, and the type of one.
#![tactic(auto)]

pub mod fields;
pub mod questions;
pub mod scopes;
