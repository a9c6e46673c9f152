// Orders played on a channel, as demand 3 says it: each is answered, its records run, and what the run leaves is the next one's.
#![tactic(auto)]

pub mod channel; // the channel, and one order played on it
pub mod list; // the orders in a list of bytes
