// The values that variables hold, and the objects behind them.
use crate::edition::Edition;
use crate::error::Unsound;
use crate::heap::Heap;
use crate::plain::{Object, PlainMachine, Value};
use crate::state::{Pair, State};
use crate::work::{MOST, Work};

// An object that is left to look at, and the address where it is to be.
#[derive(Clone, Copy, Debug, PartialEq, Eq)]
pub struct Placed {
    address: u64,
    object: Object,
}

impl Placed {
    pub const NOWHERE: Placed = Placed {
        address: 0,
        object: Object::EMPTY,
    };
}

#[derive(Drop)]
pub struct Values<'a> {
    objects: Work<'a, Placed>,
}

impl<'a> Values<'a> {
    pub fn new(objects: &'a mut [Placed]) -> Values<'a> {
        Values {
            objects: Work::new(objects),
        }
    }

    // The values of all variables.
    pub fn check(
        &mut self,
        state: &State,
        machine: &PlainMachine<'_>,
        heap: &mut Heap<'_>,
    ) -> Result<(), Unsound> {
        self.objects.clear();
        for i in 0..machine.length() {
            self.check_variable(state, i, machine.variable(i))?;
        }
        for _ in 0..MOST {
            match self.objects.pop() {
                Some(placed) => self.look(state, machine, heap, placed)?,
                None => return Ok(()),
            }
        }
        Err(Unsound)
    }

    // A pair holds a value. An object that is behind it is left.
    fn check_pair(&mut self, pair: Pair, value: Value) -> Result<(), Unsound> {
        Unsound::unless(pair.snd == value.word())?;
        match value {
            Value::Integer(_) => Ok(()),
            Value::Object(object) => {
                Unsound::unless((pair.fst == 0) == (object.count == 0))?;
                if object.count == 0 {
                    return Ok(());
                }
                self.objects.push(Placed {
                    address: pair.fst,
                    object,
                })
            }
        }
    }

    // A variable has its value's kind and holds it.
    fn check_variable(&mut self, state: &State, i: usize, value: Value) -> Result<(), Unsound> {
        Unsound::unless(state.is_integer(i) == value.is_integer())?;
        self.check_pair(state.variable(i)?, value)
    }

    // A field holds a value; an integer's Fst is 0.
    fn check_field(&mut self, pair: Pair, value: Value) -> Result<(), Unsound> {
        Unsound::unless(pair.fst == 0 || !value.is_integer())?;
        self.check_pair(pair, value)
    }

    // An object is looked at once in its block.
    fn look(
        &mut self,
        state: &State,
        machine: &PlainMachine<'_>,
        heap: &mut Heap<'_>,
        placed: Placed,
    ) -> Result<(), Unsound> {
        let block = state.block_at(placed.address)?;
        if heap.see(block, placed.object)? {
            self.check_object(state, machine, block, placed.object)?;
        }
        Ok(())
    }

    // An object lies in the blocks from its first one on.
    fn check_object(
        &mut self,
        state: &State,
        machine: &PlainMachine<'_>,
        head: usize,
        object: Object,
    ) -> Result<(), Unsound> {
        let fields = state.edition.fields();
        let link = state.edition.link();
        let mut block = head;
        let mut field = first_field(state.edition, object.count);
        for unused in 0..field {
            Unsound::unless(state.field(block, unused)?.fst == 0)?;
        }
        let mut is_last = object.count <= fields;
        for i in 0..object.count {
            if field == link && !is_last {
                block = state.block_at(state.field(block, link)?.fst)?;
                field = 0;
                is_last = object.count - i <= fields;
            }
            self.check_field(state.field(block, field)?, machine.field(object, i))?;
            field = field.wrapping_add(1);
        }
        Ok(())
    }
}

// The first field that an object of so many values uses: a whole block in the last one, and all but the link in each other, from the last value on.
fn first_field(edition: Edition, count: usize) -> usize {
    let fields = edition.fields();
    if count <= fields {
        return fields - count;
    }
    let link = edition.link();
    match (count - fields) % link {
        0 => 0,
        over => link - over,
    }
}
