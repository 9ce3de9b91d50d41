// The rules' examples A to L. No functions: the table in specs/, its proof in proofs/.

#![tactic(auto)]
