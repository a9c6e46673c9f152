// The seven orders of the scope written: the records of each.
#![tactic(auto)]

pub mod emitters; // the records
pub mod bounds; // how many they are at most
