// Tests and parts of lists that the library lacks: the definitions are in specs/, the laws on them in proofs/.

#![tactic(auto)]
