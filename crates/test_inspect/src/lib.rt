// A check of the scope's demand 3 on one state: its words beside the plain machine's values. It stands on no other crate.
#![tactic(auto)]

pub mod edition; // the fields of a block
pub mod order; // what an order says
mod arithmetic; // products and quotients
pub mod plain; // the plain machine
pub mod error; // why a check fails
pub mod state; // blocks, fields and variables in the words
pub mod work; // what is left to look at
pub mod heap; // linear list, lazy list and held blocks
pub mod values; // the values that variables hold
pub mod inspector; // all of it
