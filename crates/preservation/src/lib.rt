// Demand 3: no list of rewrites changes the rows. The statement stands in specs/, the proof in proofs/.
#![tactic(auto)]
