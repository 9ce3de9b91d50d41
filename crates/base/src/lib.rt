// Laws of booleans, lists and keys of a `match` that no one crate owns. No functions: definitions in specs/, laws in
// proofs/.

#![tactic(auto)]
