// The answers of the seven orders as numbers.
// Kept: a number, and its value through `&mut`, as the C interface gives them.
ghost use Rattle.std.specs.Prelude.{◌≡◌, [], ◌∷◌};
ghost use Rattle.order_spec.specs.Answered.{order_counter_after};
ghost use Rattle.port_numbers.specs.Order.{order_numbers};

use crate::check;
use order_spec::answer::{OrderAnswer, OrderRefusal};

// An answer as its number, with the records written, a place or the bytes needed, and the bindings of the context after it.
pub fn told(answer: OrderAnswer, value: &mut u64, bindings: &mut u64) -> u64
    ensures { result ∷ value.new ∷ bindings.new ∷ [] ≡ order_numbers answer }
{
    *value = 0;
    *bindings = 0;
    match answer {
        Ok(accepted) => {
            *value = accepted.records as u64;
            *bindings = accepted.bindings as u64;
            0
        }
        Err(OrderRefusal::Context(flaw)) => check::flaw_told(flaw, value),
        Err(OrderRefusal::Malformed(place)) => {
            *value = place as u64;
            2
        }
        Err(OrderRefusal::Frame) => 3,
        Err(OrderRefusal::Missing) => 4,
        Err(OrderRefusal::Kind) => 5,
        Err(OrderRefusal::Count) => 7,
        Err(OrderRefusal::Position) => 8,
        Err(OrderRefusal::Labels) => 9,
        Err(OrderRefusal::Room(bytes)) => {
            *value = bytes as u64;
            10
        }
        Err(OrderRefusal::Edition) => 23,
    }
}

// The counter after an answer: a refusal keeps it.
pub fn counter_after(answer: OrderAnswer, counter: u64) -> u64
    ensures { result ≡ order_counter_after counter answer }
{
    match answer {
        Ok(accepted) => accepted.counter,
        Err(_) => counter,
    }
}
