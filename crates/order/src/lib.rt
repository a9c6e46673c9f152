// The seven orders of the scope answered: an order's bytes go in with a context, a label counter and bindings; its records and the context after it come out.
#![tactic(auto)]

pub mod order; // the order as its bytes, answered
