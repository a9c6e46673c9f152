// What a context's bytes say after each accepted order: how many bindings, and of which kinds.
#![tactic(auto)]
