// Structured code: a tree's records, run by the scope's machine, do what the tree does.
// Each promise is the claim of a function that does nothing: its statement is in specs/Claims.antt, and its proof cites the theorem.
#![tactic(auto)]

ghost use Rattle.trees_proof.specs.Claims.{TreeRunsWhole, TreeRunsWithin};

// the records alone, from the first
pub fn tree_runs_whole()
    ensures { TreeRunsWhole }
{}

// the records as a part of a longer list
pub fn tree_runs_within()
    ensures { TreeRunsWithin }
{}
