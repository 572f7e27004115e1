// An image of a query plan: its words, its records and their links, and trees copied and linked again.
#![tactic(auto)]

pub mod copying;
pub mod kinds;
pub mod limits;
pub mod links;
pub mod ranges;
pub mod records;
pub mod refusals;
pub mod relink;
pub mod trees;
pub mod values;
pub mod words;
