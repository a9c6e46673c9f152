// print_i64 of code.rs: a call of the runtime with the registers that it may change saved around it.
#![tactic(auto)]

pub mod registers; // which registers are saved, and where
pub mod save; // saved and restored
pub mod code; // the call
