// The kind of a line.

#![tactic(auto)]

pub mod entry; // entry.rt: the kind of a line for a pass over a file, and that of a line whose head is known
pub mod line; // line.rt: the kind of a line
pub mod answers; // answers.rt: the answer to a caller who asks for it
