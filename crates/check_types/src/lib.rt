// Types (test 7), asked of the records of an image.
#![tactic(auto)]

pub mod operands;
pub mod places;
pub mod scans;
pub mod walk;
