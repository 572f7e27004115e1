// Test 6: names and schemas, asked of the records of an image.
#![tactic(auto)]

pub mod naming;
pub mod schemas;
