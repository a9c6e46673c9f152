// The heap of the scope as a theory: blocks, free lists, reference counts, reachability and values held, with no machine in it.
// Each promise is the claim of a function that does nothing: its statement is in specs/Claims.antt, and its proof cites the theorem.
#![tactic(auto)]

ghost use Rattle.heap.specs.Claims.{AbstractHeapStaysSound, AbstractFrontierIsPeak, RunsExist};

pub fn abstract_heap_stays_sound()
    ensures { AbstractHeapStaysSound }
{}

pub fn abstract_frontier_is_peak()
    ensures { AbstractFrontierIsPeak }
{}

// that the two speak of something
pub fn runs_exist()
    ensures { RunsExist }
{}
