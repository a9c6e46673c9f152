// The seven orders: what each writes, asks for and answers, and the plain machine beside them.
#![tactic(auto)]

pub mod answer; // what an order is answered with
