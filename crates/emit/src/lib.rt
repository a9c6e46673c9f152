// Emission: records written into a lent output, and what an operation that writes them answers.
#![tactic(auto)]

pub mod cursor; // records in a row
pub mod answer; // the answer, by the scope's numbers
