// The call `pass` on any bytes, for any budget and any room.
#![tactic(auto)]

pub mod call_pass;
