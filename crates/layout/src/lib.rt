// config.rs and utils.rs of the x86-64 back end.
#![tactic(auto)]

pub mod config; // registers, offsets
pub mod offset; // offsets of what is checked
pub mod utils; // where the variables stand
