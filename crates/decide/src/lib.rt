// Deciding: whose groups count, then the rules of these groups, walked, then the decision.

#![tactic(auto)]

pub mod answers; // answers.rt: the answer to a caller, with its refusal
pub mod program; // program.rt: what the program writes for its input
