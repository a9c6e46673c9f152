// memory.rs of the x86-64 back end: variables out of objects.
#![tactic(auto)]

pub mod load;
