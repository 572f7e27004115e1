// The answer of a rewrite: the whole image with what was written in the place of one plan, and handed out.
#![tactic(auto)]

pub mod handing_out;
pub mod levels;
pub mod splicing;
