// Steps that proofs by hand share: no code.

#![tactic(auto)]
