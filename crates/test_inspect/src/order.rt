// What a well-formed order says in its 24 bytes, as the scope lays them out.
ghost use Rattle.std.specs.Prelude.{◌+◌, ◌≤◌};

use crate::arithmetic;

// The bytes of an order.
pub const ORDER: usize = 24;

#[derive(Clone, Copy, Debug, PartialEq, Eq)]
pub enum Operation {
    Add,
    Subtract,
    Multiply,
    Divide,
    Remainder,
}

impl From<u8> for Operation {
    fn from(flag: u8) -> Operation {
        match flag {
            0 => Operation::Add,
            1 => Operation::Subtract,
            2 => Operation::Multiply,
            3 => Operation::Divide,
            _ => Operation::Remainder,
        }
    }
}

impl Operation {
    // Sums, differences and products are modulo 2^64; a quotient and a remainder are those of signed numbers, truncated toward zero, and 0 and the dividend where the
    // divisor is 0.
    pub(crate) fn of(self, x: u64, y: u64) -> u64 {
        match self {
            Operation::Add => x.wrapping_add(y),
            Operation::Subtract => x.wrapping_sub(y),
            Operation::Multiply => arithmetic::product(x, y),
            Operation::Divide => arithmetic::quotient(x, y),
            Operation::Remainder => arithmetic::remainder(x, y),
        }
    }
}

#[derive(Clone, Copy, Debug, PartialEq, Eq)]
pub enum Order {
    Literal(u64),
    Compute {
        operation: Operation,
        left: usize,
        right: usize,
    },
    Copy {
        variable: usize,
        count: usize,
    },
    Drop,
    Store {
        count: usize,
        tag: u64,
    },
    Load {
        count: usize,
    },
    // What changes no variable.
    Other,
}

impl From<[u8; ORDER]> for Order {
    fn from(bytes: [u8; ORDER]) -> Order {
        let a = number4(&bytes, 4);
        let b = number4(&bytes, 8);
        let count = number4(&bytes, 12);
        let value = number8(&bytes, 16);
        match bytes[1] {
            1 => Order::Literal(value),
            2 => Order::Compute {
                operation: Operation::from(bytes[2]),
                left: a,
                right: b,
            },
            3 => Order::Copy { variable: a, count },
            4 => Order::Drop,
            5 => Order::Store { count, tag: value },
            6 => Order::Load { count },
            _ => Order::Other,
        }
    }
}

// Numbers stand with their lowest byte first.
fn number4(bytes: &[u8; ORDER], at: usize) -> usize
    requires { at + 4 ≤ 24 }
{
    u32::from_le_bytes([bytes[at], bytes[at + 1], bytes[at + 2], bytes[at + 3]]) as usize
}

fn number8(bytes: &[u8; ORDER], at: usize) -> u64
    requires { at + 8 ≤ 24 }
{
    u64::from_le_bytes([
        bytes[at],
        bytes[at + 1],
        bytes[at + 2],
        bytes[at + 3],
        bytes[at + 4],
        bytes[at + 5],
        bytes[at + 6],
        bytes[at + 7],
    ])
}
