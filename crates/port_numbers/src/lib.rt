// Operations, checks, queries and answers by number, as C and Rust ask for them.
#![tactic(auto)]

pub mod check; // bytes checked: a context, instruction records, an order
pub mod emission; // the operations of code.rs and memory.rs, and what they answer
pub mod query; // the queries of utils.rs and config.rs
pub mod order; // what the seven orders answer
pub mod list; // what a listing answers
pub mod run; // what a run answers
