// All that demand 3 says of one state.
use crate::error::Unsound;
use crate::heap::Heap;
use crate::order::Order;
use crate::plain::PlainMachine;
use crate::state::State;
use crate::values::Values;

// The plain machine, and what is kept from one state to the next: which blocks were ever held or on HEAP's list, and the peak.
#[derive(Drop)]
pub struct Inspector<'a> {
    machine: PlainMachine<'a>,
    heap: Heap<'a>,
    values: Values<'a>,
}

impl<'a> Inspector<'a> {
    pub fn new(machine: PlainMachine<'a>, heap: Heap<'a>, values: Values<'a>) -> Inspector<'a> {
        Inspector {
            machine,
            heap,
            values,
        }
    }

    // The most blocks that the variables reached after any one order so far.
    pub fn peak(&self) -> usize {
        self.heap.peak()
    }

    // What an accepted order does.
    pub fn perform(&mut self, order: Order) {
        self.machine.perform(order);
    }

    // Whether a state is as demand 3 says beside the plain machine's values.
    pub fn is_sound(&mut self, state: &State) -> bool {
        self.check(state).is_ok()
    }

    fn check(&mut self, state: &State) -> Result<(), Unsound> {
        state.check_frame(self.machine.length())?;
        self.heap.check(state, &self.machine)?;
        self.values.check(state, &self.machine, &mut self.heap)
    }
}

#[cfg(test)]
mod tests {
    use super::*;
    use crate::edition::Edition;
    use crate::heap::Mark;
    use crate::plain::{FIELDS, VALUES, VARIABLES, Value};
    use crate::values::Placed;
    use crate::work::ROOM;
    use std::test::Fail;

    // A channel before its first order: HEAP at its first block, FREE at its second, STACK below the frame.
    #[test]
    fn inspects_fresh_words(rt: HostRuntime) -> Result<(), Fail> {
        let mut variables = [0u32; VARIABLES];
        let mut fields = [0u32; FIELDS];
        let mut values = [Value::NONE; VALUES];
        let mut marks = [Mark::NEW; 3];
        let mut pointers = [0u64; ROOM];
        let mut objects = [Placed::NOWHERE; ROOM];
        let mut inspector = Inspector::new(
            PlainMachine::new(&mut variables, &mut fields, &mut values),
            Heap::new(&mut marks, &mut pointers),
            Values::new(&mut objects),
        );
        let stack = [0u64; 64];
        let heap = [0u64; 24];
        let mut registers = [0u64; 16];
        registers[0] = 1099511627720;
        registers[2] = 65536;
        registers[3] = 65600;
        let state = State {
            edition: Edition::First,
            context: &[],
            registers: &registers,
            stack: &stack,
            heap: &heap,
        };
        assert!(rt; inspector.is_sound(&state));
        assert_eq!(rt; inspector.peak(), 0);
        inspector.perform(Order::Literal(7));
        assert!(rt;
            !inspector.is_sound(&state),
            "a variable that the words do not have"
        );
        Ok(())
    }
}
