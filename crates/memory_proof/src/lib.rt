// The trees of memory.rs perform the abstract heap's operations: lemmas, on which the promises of `soundness` rest.
#![tactic(auto)]
