// The two passes over the lines of a file: whose groups apply, and what the rules of these groups come to.

#![tactic(auto)]

pub mod audience; // audience.rt: whose groups apply
pub mod gather; // gather.rt: what the agent and rule lines of a file come to
pub mod line; // line.rt: the first and the next line, the value of a line and its rule, where they stand in the file
