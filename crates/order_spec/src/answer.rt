// What an order is answered with.
ghost use Rattle.std.specs.Prelude.{◌≡◌};
ghost use Rattle.order_spec.specs.declared.answer.OrderRefusal.TheVariants.{Context};

use records::context::Flaw;

// The number of records, the counter after them and the number of bindings in the context after them.
#[derive(Clone, Copy, Debug, PartialEq, Eq)]
pub struct Accepted {
    pub records: usize,
    pub counter: u64,
    pub bindings: usize,
}

// Why an order is refused, by the documents' causes.
#[derive(Clone, Copy, Debug, PartialEq, Eq)]
pub enum OrderRefusal {
    // 15 to 17: what is bad in the context or in the bindings, with its place; those of the bindings count on
    Context(Flaw),
    // 2: the order, or the number of its bindings, with the record's place
    Malformed(usize),
    // 3: no frame of so many spills
    Frame,
    // 4: a place that is not in the context, or more to store than there is
    Missing,
    // 5: a variable of the wrong kind
    Kind,
    // 7: a copy's count
    Count,
    // 8: a position past the last
    Position,
    // 9: labels
    Labels,
    // 10: an output is too short, with the bytes needed
    Room(usize),
    // 23: no such edition, before all others
    Edition,
}

impl From<Flaw> for OrderRefusal {
    ghost from_gives = { λ flaw refusal. refusal ≡ Context flaw };

    fn from(flaw: Flaw) -> OrderRefusal {
        OrderRefusal::Context(flaw)
    }
}

// An order's answer: accepted, or refused.
pub type OrderAnswer = Result<Accepted, OrderRefusal>;
