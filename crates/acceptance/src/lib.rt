// The definitions of this crate stand in specs/, the laws about them in proofs/.
#![tactic(auto)]
