// No code: specs/ says when two neighbouring groups of a file may be exchanged (M-108), and proofs/ that no answer changes by it.

#![tactic(auto)]
