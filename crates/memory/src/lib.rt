// memory.rs of the x86-64 back end: blocks. The definitions of objects stand here too.
#![tactic(auto)]

pub mod block;
