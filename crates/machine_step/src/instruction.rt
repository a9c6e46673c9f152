// Each kind of instruction, on registers, a stack and a heap that are lent.
ghost use Rattle.std.specs.Prelude.{◌≡◌, List, ℕ, ◌<◌, length};
ghost use Rattle.word.specs.Words.{signs};
ghost use Rattle.machine_step.specs.View.{view, words_of, put_reg};
ghost use Rattle.machine_step.specs.Step as is;
ghost use Rattle.machine_step.specs.Forms.{operand_of, result_of, holds_of, Acts};

use crate::memory;
use crate::operand::{assign, operand};
use records::code::Fields;
use records::name::{PRINT_I64, PRINTLN_I64};

// How an instruction leaves the run: on to the next record, on after a call of a name with a number, at a label, at the end, or as before it with a
// fault.
#[derive(Clone, Copy)]
pub enum Went {
    Next,
    Called(u32, u64),
    Jump(u32),
    End,
    Fault,
}

// The last compare's two words, where only moves came since: none where `made` is 0. It is carried so in the run's loop, where an Option would have padding
// to copy.
#[derive(Clone, Copy)]
pub struct Pair {
    pub made: u64,
    pub x: u64,
    pub y: u64,
}

pub const NONE: Pair = Pair {
    made: 0,
    x: 0,
    y: 0,
};

// An answer, and the pair after it.
#[derive(Clone, Copy)]
pub struct Moved {
    pub went: Went,
    pub pair: Pair,
}

// Kept by number, as `holds` and the forms of operands are: the table of the run gives digits, and a step by matches took twice as long.
#[tactic(auto, unfolding(crate::specs::Forms::result_of))]
fn result(n: u8, x: u64, y: u64) -> u64
    ensures { result ≡ result_of n x y }
{
    match n {
        0 => word::sum(x, y),
        1 => word::difference(x, y),
        _ => word::product(x, y),
    }
}

#[tactic(auto, unfolding(crate::specs::Forms::holds_of))]
fn holds(n: u8, x: u64, y: u64) -> bool
    ensures { result ≡ holds_of n x y }
{
    match n {
        0 => x == y,
        1 => x != y,
        2 => word::less(x, y),
        3 => !word::less(y, x),
        4 => word::less(y, x),
        _ => !word::less(x, y),
    }
}

// The operation n on two operands.
pub fn calculate(
    n: u8,
    t: u8,
    u: u8,
    f: Fields,
    registers: &mut [u64; 16],
    stack: &mut [u64],
    heap: &mut [u64],
    pair: Pair,
) -> Moved
    requires { (f.a < 16) × (f.b < 16) × (length registers.old ≡ 16) }
    ensures { Acts registers.old stack.old heap.old registers.new stack.new heap.new pair result (is.calculate (result_of n) (operand_of t f) (operand_of u f)) }
{
    let Some(y) = operand(u, f, registers, stack, heap) else {
        return Moved {
            went: Went::Fault,
            pair,
        };
    };
    let Some(x) = operand(t, f, registers, stack, heap) else {
        return Moved {
            went: Went::Fault,
            pair,
        };
    };
    if assign(t, f, registers, stack, heap, result(n, x, y)) {
        Moved {
            went: Went::Next,
            pair: NONE,
        }
    } else {
        Moved {
            went: Went::Fault,
            pair,
        }
    }
}

pub fn transfer(
    t: u8,
    u: u8,
    f: Fields,
    registers: &mut [u64; 16],
    stack: &mut [u64],
    heap: &mut [u64],
    pair: Pair,
) -> Moved
    requires { (f.a < 16) × (f.b < 16) × (length registers.old ≡ 16) }
    ensures { Acts registers.old stack.old heap.old registers.new stack.new heap.new pair result (is.move (operand_of t f) (operand_of u f)) }
{
    let Some(y) = operand(u, f, registers, stack, heap) else {
        return Moved {
            went: Went::Fault,
            pair,
        };
    };
    if assign(t, f, registers, stack, heap, y) {
        Moved {
            went: Went::Next,
            pair,
        }
    } else {
        Moved {
            went: Went::Fault,
            pair,
        }
    }
}

pub fn compare(
    t: u8,
    u: u8,
    f: Fields,
    registers: &[u64; 16],
    stack: &[u64],
    heap: &[u64],
    pair: Pair,
) -> Moved
    requires { (f.a < 16) × (f.b < 16) × (length registers.now ≡ 16) }
    ensures { Acts registers.now stack.now heap.now registers.now stack.now heap.now pair result (is.compare (operand_of t f) (operand_of u f)) }
{
    let Some(y) = operand(u, f, registers, stack, heap) else {
        return Moved {
            went: Went::Fault,
            pair,
        };
    };
    let Some(x) = operand(t, f, registers, stack, heap) else {
        return Moved {
            went: Went::Fault,
            pair,
        };
    };
    Moved {
        went: Went::Next,
        pair: Pair { made: 1, x, y },
    }
}

pub fn divide(
    u: u8,
    f: Fields,
    registers: &mut [u64; 16],
    stack: &[u64],
    heap: &[u64],
    pair: Pair,
) -> Moved
    requires { (f.a < 16) × (f.b < 16) × (length registers.old ≡ 16) }
    ensures { Acts registers.old stack.now heap.now registers.new stack.now heap.now pair result (is.divide (operand_of u f)) }
{
    let Some(d) = operand(u, f, registers, stack, heap) else {
        return Moved {
            went: Went::Fault,
            pair,
        };
    };
    let low = registers[4];
    if word::divides(registers[5], low, d) {
        registers[4] = word::quotient(low, d);
        registers[5] = word::remainder(low, d);
        Moved {
            went: Went::Next,
            pair: NONE,
        }
    } else {
        Moved {
            went: Went::Fault,
            pair,
        }
    }
}

// CQO.
pub fn extend(registers: &mut [u64; 16], pair: Pair) -> Moved
    requires { length registers.old ≡ 16 }
    ensures { (S H : List ℕ) → Acts registers.old S H registers.new S H pair result (λ c. is.next (is.changed c (put_reg c.state 5 (signs (c.state.reg 4))))) }
{
    registers[5] = word::signs(registers[4]);
    Moved {
        went: Went::Next,
        pair: NONE,
    }
}

pub fn branch(n: u8, label: u32, pair: Pair) -> Moved
    ensures { (R S H : List ℕ) → length R ≡ 16 → Acts R S H R S H pair result (is.branch (holds_of n) label) }
{
    if pair.made == 0 {
        return Moved {
            went: Went::Fault,
            pair,
        };
    }
    if holds(n, pair.x, pair.y) {
        Moved {
            went: Went::Jump(label),
            pair: NONE,
        }
    } else {
        Moved {
            went: Went::Next,
            pair: NONE,
        }
    }
}

pub fn push(
    a: u8,
    registers: &mut [u64; 16],
    stack: &mut [u64],
    heap: &mut [u64],
    pair: Pair,
) -> Moved
    requires { (a < 16) × (length registers.old ≡ 16) }
    ensures { Acts registers.old stack.old heap.old registers.new stack.new heap.new pair result (is.push a) }
{
    let i = a as usize;
    let address = word::difference(registers[0], 8);
    if memory::store(stack, heap, address, registers[i]) {
        registers[0] = address;
        Moved {
            went: Went::Next,
            pair: NONE,
        }
    } else {
        Moved {
            went: Went::Fault,
            pair,
        }
    }
}

pub fn pop(a: u8, registers: &mut [u64; 16], stack: &[u64], heap: &[u64], pair: Pair) -> Moved
    requires { (a < 16) × (length registers.old ≡ 16) }
    ensures { Acts registers.old stack.now heap.now registers.new stack.now heap.now pair result (is.pop a) }
{
    let i = a as usize;
    let Some(w) = memory::load(stack, heap, registers[0]) else {
        return Moved {
            went: Went::Fault,
            pair,
        };
    };
    registers[0] = word::sum(registers[0], 8);
    registers[i] = w;
    Moved {
        went: Went::Next,
        pair: NONE,
    }
}

// PRINT_I64 and PRINTLN_I64.
fn print_name(label: u32) -> bool
    ensures { result ≡ is.is_print_name label }
{
    label == PRINT_I64 || label == PRINTLN_I64
}

// The words that a print leaves.
fn lend(registers: &mut [u64; 16], words: &[u64; 9])
    requires { length registers.old ≡ 16 }
    ensures { (length registers.new ≡ 16) × ((S H : List ℕ) → view registers.new S H ≡ is.after_print (words_of words.now) (view registers.old S H)) }
{
    registers[1] = words[0];
    registers[4..12].copy_from_slice(&words[1..]);
}

pub fn call(label: u32, registers: &mut [u64; 16], words: &[u64; 9], pair: Pair) -> Moved
    requires { length registers.old ≡ 16 }
    ensures { (S H : List ℕ) → Acts registers.old S H registers.new S H pair result (is.call (words_of words.now) label) }
{
    if !print_name(label) || registers[0] % 16 != 0 {
        return Moved {
            went: Went::Fault,
            pair,
        };
    }
    let number = registers[7];
    lend(registers, words);
    Moved {
        went: Went::Called(label, number),
        pair: NONE,
    }
}

pub fn finish(registers: &mut [u64; 16], pair: Pair) -> Moved
    requires { length registers.old ≡ 16 }
    ensures { (S H : List ℕ) → Acts registers.old S H registers.new S H pair result is.return }
{
    if registers[0] == 1099511627768 {
        registers[0] = word::sum(registers[0], 8);
        Moved {
            went: Went::End,
            pair: NONE,
        }
    } else {
        Moved {
            went: Went::Fault,
            pair,
        }
    }
}
