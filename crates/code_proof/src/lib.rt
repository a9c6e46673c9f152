// What the records of code.rs's operations do on the scope's machine.
// Each promise is the claim of a function that does nothing: its statement is in specs/Claims.antt, and its proof cites the theorem.
#![tactic(auto)]

ghost use Rattle.code_proof.specs.Claims.{JumpsWhereItNames, LabelDoesNothing, RunsAsItNames};

// load_immediate, mov, add, sub, mul, div and rem: the bytes that they write, run from the first record with their number as step limit
pub fn runs_as_it_names()
    ensures { RunsAsItNames }
{}

// jump_label, jump_label_fixed, the twelve conditional jumps, and compare and compare_immediate before one
pub fn jumps_where_it_names()
    ensures { JumpsWhereItNames }
{}

// label
pub fn label_does_nothing()
    ensures { LabelDoesNothing }
{}
