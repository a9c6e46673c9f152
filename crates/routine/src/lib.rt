// into_routine.rs: a body of records made a whole routine.
#![tactic(auto)]

ghost use Rattle.routine.specs.Records.{RoutineIsRecords};

pub mod into_routine; // the records around the body, and the whole

// A routine's bytes are those of the records before the body, the body's and the cleanup's.
pub fn routine_is_records()
    ensures { RoutineIsRecords }
{}
