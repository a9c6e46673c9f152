// code.rs of the x86-64 back end: moves, arithmetic, compares and jumps, from a cursor on.
#![tactic(auto)]

pub mod parts; // what the operations are made of
pub mod emitters; // each operation's records
