// What the records around a routine's body do on the scope's machine.
// The promise is the claim of a function that does nothing: its statement is in specs/Claims.antt, and its proof cites the theorem.
#![tactic(auto)]

ghost use Rattle.routine_proof.specs.Claims.{RoutineReturns};

// setup, the moves of the arguments, and cleanup
pub fn routine_returns()
    ensures { RoutineReturns }
{}
