// Demand 3 over the real builder. No functions: definitions in specs/, the theorem in proofs/.

#![tactic(auto)]
