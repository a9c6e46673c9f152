// The machine of the scope: a state of 16 registers and a stack beside a lent heap, one step of it, and a run with a step limit.
#![tactic(auto)]

ghost use Rattle.machine.specs.Claims.{ViewsDetermine};

pub mod state; // the state at entry, and where a routine's body starts
pub mod step; // one instruction
pub mod run; // a list of records

// Contracts say what a state and a heap are seen as: that determines every word of them.
pub fn views_determine()
    ensures { ViewsDetermine }
{}
