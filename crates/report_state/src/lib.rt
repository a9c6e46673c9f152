// The variables of a channel as its operators read them, and what its print orders write, put into a text at an index as `text` does.
#![tactic(auto)]

pub mod variables; // the line of each variable
pub mod prints; // what a print order writes
