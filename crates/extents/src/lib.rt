// How many records and levels trees have, read off an image and off its lists: proved, and called by nothing yet.
#![tactic(auto)]

pub mod extent;
