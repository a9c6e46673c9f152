// What print_i64's records do on the scope's machine.
// The promise is the claim of a function that does nothing: its statement is in specs/Claims.antt, and its proof cites the theorem.
#![tactic(auto)]

ghost use Rattle.print_i64_proof.specs.Claims.{PrintKeepsAllVariables};

// one call, with the source's word in register 7; every variable, STACK, HEAP, FREE and the heap as before
pub fn print_keeps_all_variables()
    ensures { PrintKeepsAllVariables }
{}
