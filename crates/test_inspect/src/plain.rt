// The plain machine of demand 3: values in variables, and no heap.
ghost use Rattle.std.specs.Prelude.{◌≢◌, ◌<◌, All};

use crate::order::Order;

// How many variables it has places for, how many fields of objects, and how many values: an order makes one at most, and a list has 2,730 orders at most. What has
// no place is lost. With VARIABLES + FIELDS + 1 places for values there is always one for a new value, however many are made.
pub const VARIABLES: usize = 512;

pub const FIELDS: usize = 65536;

pub const VALUES: usize = 2730;

// The number of a lost value.
const LOST: u32 = u32::MAX;

// A tag, and which of the machine's fields are the object's.
#[derive(Clone, Copy, Debug, PartialEq, Eq)]
pub struct Object {
    pub tag: u64,
    pub first: usize,
    pub count: usize,
}

#[derive(Clone, Copy, Debug, PartialEq, Eq)]
pub enum Value {
    Integer(u64),
    Object(Object),
}

impl Object {
    // What a place holds before there is any value.
    pub const EMPTY: Object = Object {
        tag: 0,
        first: 0,
        count: 0,
    };
}

impl Value {
    // What the first value's place holds before there is any value.
    pub const NONE: Value = Value::Object(Object::EMPTY);

    // What is read of a lost value.
    const LOST: Value = Value::Integer(u64::MAX);

    // What its Snd holds: the integer, or the tag.
    pub fn word(self) -> u64 {
        match self {
            Value::Integer(integer) => integer,
            Value::Object(object) => object.tag,
        }
    }

    pub fn is_integer(self) -> bool {
        matches!(self, Value::Integer(_))
    }

    // What a load of it takes: its tag, and which of the machine's fields. An integer has no list. Its number of fields is read as the largest word, so a list
    // of orders that breaks the premise of its loads is not played to its end.
    fn loaded(self) -> Object {
        match self {
            Value::Integer(integer) => Object {
                tag: integer,
                first: 0,
                count: usize::MAX,
            },
            Value::Object(object) => object,
        }
    }
}

// Values go by their numbers, in the sequence in which they were made as long as places are left; a variable and a field have the number of their value. Where a
// list's bindings are not its objects' own kinds, the machine goes on with other variables than the state has: their number is modulo 2^64, a place keeps what was in
// it last, and those that nothing was in hold the first value of all.
#[derive(Drop)]
pub struct PlainMachine<'a> {
    variables: &'a mut [u32],
    fields: &'a mut [u32],
    values: &'a mut [Value],
    length: usize,
    used: usize,
    made: u32,
}

impl<'a> PlainMachine<'a> {
    // On places that are lent: zeroes, and values that are none.
    pub fn new(
        variables: &'a mut [u32],
        fields: &'a mut [u32],
        values: &'a mut [Value],
    ) -> PlainMachine<'a> {
        PlainMachine {
            variables,
            fields,
            values,
            length: 0,
            used: 0,
            made: 0,
        }
    }

    // How many variables there are.
    pub fn length(&self) -> usize {
        self.length
    }

    fn value(&self, number: u32) -> Value {
        self.values
            .get(number as usize)
            .copied()
            .unwrap_or(Value::LOST)
    }

    fn number(&self, variable: usize) -> u32 {
        self.variables.get(variable).copied().unwrap_or(LOST)
    }

    fn field_number(&self, place: usize) -> u32 {
        self.fields.get(place).copied().unwrap_or(LOST)
    }

    // The value of a variable.
    pub fn variable(&self, i: usize) -> Value {
        self.value(self.number(i))
    }

    // The value of an object's field.
    pub fn field(&self, object: Object, i: usize) -> Value {
        self.value(self.field_number(object.first.wrapping_add(i)))
    }

    // A value in a new variable.
    fn push(&mut self, number: u32) {
        let at = self.length;
        if let Some(place) = self.variables.get_mut(at) {
            *place = number;
        }
        self.length = at.wrapping_add(1);
    }

    // A number that no place of a variable and of an object's field has, a dropped variable's among them; LOST where there is none.
    fn free_number(&self) -> u32
        ensures { (result < LOST) → All (λ n. n ≢ result) self.now.variables.now × All (λ n. n ≢ result) self.now.fields.now }
    {
        for number in 0..LOST {
            if !self.variables.contains(&number) && !self.fields.contains(&number) {
                return number;
            }
        }
        LOST
    }

    // The number of a new value: the one after the last, and a free one once no place is left.
    fn new_number(&mut self) -> u32 {
        let number = self.made;
        if number == LOST || self.values.len() <= number as usize {
            return self.free_number();
        }
        self.made = number + 1;
        number
    }

    // A new value, in a new variable.
    fn put(&mut self, value: Value) {
        let number = self.new_number();
        if let Some(place) = self.values.get_mut(number as usize) {
            *place = value;
        }
        self.push(number);
    }

    fn copy(&mut self, variable: usize, count: usize) {
        let number = self.number(variable);
        for _ in 0..count {
            self.push(number);
        }
    }

    // The last variables go.
    fn shorten(&mut self, count: usize) {
        self.length = self.length.wrapping_sub(count);
    }

    // The last variables go into an object.
    fn store(&mut self, count: usize, tag: u64) {
        let first = self.used;
        self.shorten(count);
        for i in 0..count {
            let from = self.length.wrapping_add(i);
            let number = self.number(from);
            self.store_field(number);
        }
        self.put(Value::Object(Object { tag, first, count }));
    }

    fn store_field(&mut self, number: u32) {
        let at = self.used;
        if let Some(place) = self.fields.get_mut(at) {
            *place = number;
        }
        self.used = at.wrapping_add(1);
    }

    // The last variable goes, and its object's fields come.
    fn load(&mut self) {
        self.shorten(1);
        let last = self.length;
        let object = self.variable(last).loaded();
        for i in 0..object.count {
            self.push(self.field_number(object.first.wrapping_add(i)));
        }
    }

    // What an accepted order does.
    pub fn perform(&mut self, order: Order) {
        match order {
            Order::Literal(integer) => self.put(Value::Integer(integer)),
            Order::Compute {
                operation,
                left,
                right,
            } => {
                let x = self.variable(left).word();
                let y = self.variable(right).word();
                self.put(Value::Integer(operation.of(x, y)));
            }
            Order::Copy { variable, count } => self.copy(variable, count),
            Order::Drop => self.shorten(1),
            Order::Store { count, tag } => self.store(count, tag),
            Order::Load { .. } => self.load(),
            Order::Other => {}
        }
    }
}

#[cfg(test)]
mod tests {
    use super::*;
    use std::test::Fail;

    // Once no place is left, a new value takes one whose number no variable and no object's field has, and is lost where there is none.
    #[test]
    fn takes_no_place_that_is_held(rt: HostRuntime) -> Result<(), Fail> {
        let mut variables = [0u32; 5];
        let mut fields = [0u32; 4];
        let mut values = [Value::NONE; 5];
        let mut machine = PlainMachine::new(&mut variables, &mut fields, &mut values);
        let object = Object {
            tag: 8,
            first: 0,
            count: 1,
        };
        machine.perform(Order::Literal(6));
        machine.perform(Order::Literal(7));
        machine.perform(Order::Store { count: 1, tag: 8 });
        for integer in 0..100 {
            machine.perform(Order::Literal(integer));
            assert_eq!(rt; machine.variable(2), Value::Integer(integer));
            machine.perform(Order::Drop);
        }
        for integer in 3..6 {
            machine.perform(Order::Literal(integer));
        }
        assert_eq!(rt; machine.variable(0), Value::Integer(6));
        assert_eq!(rt; machine.variable(1), Value::Object(object));
        assert_eq!(rt; machine.field(object, 0), Value::Integer(7));
        assert_eq!(rt; machine.variable(2), Value::Integer(3));
        assert_eq!(rt; machine.variable(3), Value::Integer(4));
        assert_eq!(rt; machine.variable(4), Value::LOST);
        Ok(())
    }
}
