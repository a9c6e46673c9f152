// code.rs of the x86-64 back end: its operations on operands given directly.
#![tactic(auto)]

pub mod operation; // an operation with its operands: checked, sized and written
pub mod by_name; // the operations of code.rs, each by its name
