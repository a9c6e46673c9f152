// memory.rs of the x86-64 back end: variables into objects.
#![tactic(auto)]

pub mod store;
