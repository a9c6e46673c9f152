// An order of the scope judged on its context: what it wants, its causes from 4 to 8, and the context after it.
#![tactic(auto)]

pub mod checks; // what an order asks of the context
pub mod after; // the context after it
