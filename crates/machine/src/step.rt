// One instruction.
ghost use Rattle.std.specs.Prelude.{◌≡◌, List, true, length, ◌<◌};
ghost use Rattle.records.specs.Answers.{AnswersBy};
ghost use Rattle.records.specs.Codes.{code_of};
ghost use Rattle.records.specs.Instructions.{fields_ok};
ghost use Rattle.machine_step.specs.View.{words_of};
ghost use Rattle.machine_step.specs.Step as is;
ghost use Rattle.machine_step.specs.Step.{Call, config};
ghost use Rattle.machine_step.specs.Forms.{compared_of, Acts};
ghost use Rattle.machine.specs.State.{see};
ghost use Rattle.machine.specs.Tables.{tabled, performed};
ghost use Rattle.machine.specs.Trial.{trial, trial_of, step_cause};

use crate::state::State;
use machine_step::instruction::{Moved, NONE, Pair, Went};
use machine_step::{instruction, memory};
use records::check::Malformed;
use records::code;
use records::code::{Code, Fields};

// An instruction tried alone: the scope's 2 with place 0 for the heap, 1 for the instruction. The last compare's two words stand beside it.
#[derive(Clone, Copy)]
pub struct Stepped {
    pub state: State,
    pub compared: Option<(u64, u64)>,
    pub tried: Result<Went, Malformed>,
}

// For each code, three digits: its operation, its target's form and its source's form.
// Operations: 0 to 2 sum, difference and product, 3 move, 4 compare, 5 divide, 6 CQO, 7 jump, 8 conditional jump, 9 push, 10 pop, 11 call, 12 return,
// 13 none, 14 fault.
// Forms: 0 register a, 1 register b, 2 memory at a, 3 memory at b, 4 the value; a conditional jump's condition stands as its target's form.
pub const KINDS: [u16; 44] = [
    0x001, 0x003, 0x021, 0x004, 0x024, 0x101, 0x103, 0x121, 0x104, 0x201, 0x203, 0x221, 0x500,
    0x502, 0x600, 0xE00, 0x700, 0x700, 0xE00, 0x301, 0x330, 0x303, 0x304, 0x324, 0x401, 0x403,
    0x421, 0x404, 0x424, 0x800, 0x810, 0x820, 0x830, 0x840, 0x850, 0x900, 0xA00, 0xB00, 0xC00,
    0xD00, 0xD00, 0xD00, 0xD00, 0xD00,
];

// The record f, by its code's three digits.
#[tactic(auto, unfolding(crate::specs::Tables::performed))]
fn perform(
    n: u8,
    t: u8,
    u: u8,
    f: Fields,
    registers: &mut [u64; 16],
    stack: &mut [u64],
    heap: &mut [u64],
    words: &[u64; 9],
    pair: Pair,
) -> Moved
    requires { (f.a < 16) × (f.b < 16) × (length registers.old ≡ 16) }
    ensures { Acts registers.old stack.old heap.old registers.new stack.new heap.new pair result (performed (words_of words.now) n t u f) }
{
    match n {
        0..=2 => instruction::calculate(n, t, u, f, registers, stack, heap, pair),
        3 => instruction::transfer(t, u, f, registers, stack, heap, pair),
        4 => instruction::compare(t, u, f, registers, stack, heap, pair),
        5 => instruction::divide(u, f, registers, stack, heap, pair),
        6 => instruction::extend(registers, pair),
        7 => Moved {
            went: Went::Jump(f.label),
            pair: NONE,
        },
        8 => instruction::branch(t, f.label, pair),
        9 => instruction::push(f.a, registers, stack, heap, pair),
        10 => instruction::pop(f.a, registers, stack, heap, pair),
        11 => instruction::call(f.label, registers, words, pair),
        12 => instruction::finish(registers, pair),
        13 => Moved {
            went: Went::Next,
            pair: NONE,
        },
        _ => Moved {
            went: Went::Fault,
            pair,
        },
    }
}

// The record f. The table is lent, so that a run copies it once.
pub fn act(
    kinds: &[u16; 44],
    f: Fields,
    registers: &mut [u64; 16],
    stack: &mut [u64],
    heap: &mut [u64],
    words: &[u64; 9],
    pair: Pair,
) -> Moved
    requires { (kinds.now ≡ tabled) × (fields_ok f ≡ true) × (length registers.old ≡ 16) }
    ensures { Acts registers.old stack.old heap.old registers.new stack.new heap.new pair result (is.step (words_of words.now) (code_of f)) }
{
    let kind = kinds[(f.code as usize) - 1];
    let n = (kind / 256 % 16) as u8;
    let t = (kind / 16 % 16) as u8;
    let u = (kind % 16) as u8;
    perform(n, t, u, f, registers, stack, heap, words, pair)
}

fn pair_of(compared: Option<(u64, u64)>) -> Pair
    ensures { compared_of result ≡ compared }
{
    match compared {
        None => NONE,
        Some((x, y)) => Pair { made: 1, x, y },
    }
}

fn compared_of(pair: Pair) -> Option<(u64, u64)>
    ensures { result ≡ compared_of pair }
{
    if pair.made == 0 {
        None
    } else {
        Some((pair.x, pair.y))
    }
}

// One instruction, on a state that is taken and returned, where a block has so many words. A fault or a refusal returns all as it was.
pub fn step(
    block: usize,
    code: Code,
    state: State,
    heap: &mut [u64],
    compared: Option<(u64, u64)>,
    words: [u64; 9],
) -> Stepped
    ensures { (calls : List Call) → AnswersBy step_cause (trial_of result.tried (see result.state heap.new) result.compared calls) (trial block (words_of words) code (config (see state heap.old) compared calls)) }
{
    if !memory::heap_ok(block, heap.len()) {
        return Stepped {
            state,
            compared,
            tried: Err(Malformed { place: 0 }),
        };
    }
    let f = code::fields_of(code);
    if !code::fields_ok(f) {
        return Stepped {
            state,
            compared,
            tried: Err(Malformed { place: 1 }),
        };
    }
    let kinds = KINDS;
    let mut registers = state.registers;
    let mut stack = state.stack;
    let m = act(
        &kinds,
        f,
        &mut registers,
        &mut stack,
        heap,
        &words,
        pair_of(compared),
    );
    Stepped {
        state: State { registers, stack },
        compared: compared_of(m.pair),
        tried: Ok(m.went),
    }
}
