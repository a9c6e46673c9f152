// The words of a planner's line, and the order that they ask for.
#![tactic(auto)]

pub mod numbers; // the number of a word
pub mod orders; // the order of a line's words
pub mod words; // the words of a line
pub mod wrong; // what can be wrong with a line
