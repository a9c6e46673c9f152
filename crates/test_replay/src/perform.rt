// A request put to the port.
use crate::request::Request;
use code::emitters::Condition;
use emit::answer::Answer;
use layout::config::NoOffset;
use layout::utils::{NoTemporary, TemporaryNumber};
use operations::operation::Operation;
use records::order;

// What the port answers: the scope's number, 0 where it is not refused; records or another number; the counter after.
#[derive(Clone, Copy)]
pub struct Answered {
    pub number: u64,
    pub value: u64,
    pub counter: u64,
}

fn of_answer(answer: Answer) -> Answered {
    let mut value = 0;
    let number = port_numbers::emission::told(answer, &mut value);
    let counter = port_numbers::emission::counter_after(answer, 0);
    Answered {
        number,
        value,
        counter,
    }
}

fn of_temporary(temporary: Result<u64, NoTemporary>) -> Answered {
    let mut value = 0;
    let number = port_numbers::query::located(temporary, &mut value);
    Answered {
        number,
        value,
        counter: 0,
    }
}

fn of_offset(offset: Result<u64, NoOffset>) -> Answered {
    let mut value = 0;
    let number = port_numbers::query::measured(offset, &mut value);
    Answered {
        number,
        value,
        counter: 0,
    }
}

// Kept by name, as the next two: a request's byte is any, and what is past the last means the last.
fn condition(kind: u8) -> Condition {
    match kind {
        0 => Condition::Equal,
        1 => Condition::NotEqual,
        2 => Condition::Less,
        3 => Condition::LessOrEqual,
        4 => Condition::Greater,
        _ => Condition::GreaterOrEqual,
    }
}

fn arithmetic(kind: u8) -> order::Calculation {
    match kind {
        0 => order::Calculation::Add,
        1 => order::Calculation::Sub,
        2 => order::Calculation::Mul,
        3 => order::Calculation::Div,
        _ => order::Calculation::Rem,
    }
}

fn half(kind: u8) -> TemporaryNumber {
    if kind == 0 {
        TemporaryNumber::Fst
    } else {
        TemporaryNumber::Snd
    }
}

// Operations 1 to 13.
fn operation(r: Request) -> Operation {
    match r.operation {
        1 => Operation::Label(r.label),
        2 => Operation::Jump(r.x),
        3 => Operation::JumpLabel(r.label),
        4 => Operation::JumpLabelFixed(r.label),
        5 => Operation::JumpLabelIf(condition(r.kind), r.x, r.y, r.label),
        6 => Operation::JumpLabelIfZero(condition(r.kind), r.x, r.label),
        7 => Operation::LoadImmediate(r.x, r.z),
        8 => Operation::LoadLabel(r.x, r.label),
        9 => Operation::AddAndJump(r.x, r.z),
        10 => Operation::Arithmetic(arithmetic(r.kind), r.x, r.y, r.z),
        11 => Operation::Mov(r.x, r.y),
        12 => Operation::Compare(r.x, r.y),
        _ => Operation::CompareImmediate(r.x, r.z),
    }
}

// A spill's word; past the largest frame 0, which is none's.
fn word_of(spill: u64) -> u64 {
    let frame = layout::config::larger();
    if spill < frame.spills { 16 + spill } else { 0 }
}

// Queries 20 to 24; any other number is no request.
fn ask(r: Request, context: &[u8]) -> Answered {
    match r.operation {
        20 => of_temporary(layout::utils::position(r.frame, r.x)),
        21 => of_temporary(layout::utils::fresh_temporary(r.frame, half(r.kind), context)),
        22 => of_temporary(layout::utils::variable_temporary(
            r.frame,
            half(r.kind),
            context,
            r.label,
        )),
        23 => of_offset(layout::config::stack_offset(r.frame, word_of(r.x))),
        24 => of_offset(layout::config::field_offset(r.edition, half(r.kind), r.x)),
        _ => Answered {
            number: 2,
            value: 0,
            counter: 0,
        },
    }
}

// The second context is that which a load's variables come after.
pub fn perform(out: &mut [u8], r: Request, first: &[u8], second: &[u8]) -> Answered {
    if r.operation < 14 {
        return of_answer(operations::operation::operate(out, r.frame, operation(r)));
    }
    match r.operation {
        14 => of_answer(print_i64::code::print_i64(out, r.frame, r.kind == 1, r.x, first)),
        15 => of_answer(memory::block::erase_block(out, r.frame, r.counter, r.x)),
        16 => of_answer(memory::block::share_block_n(out, r.frame, r.counter, r.x, r.z)),
        17 => of_answer(memory_store::store::store(out, r.edition, r.frame, r.counter, first, r.z)),
        18 => of_answer(memory_load::load::load(out, r.edition, r.frame, r.counter, first, second)),
        19 => of_answer(routine::into_routine::into_x86_64_routine(
            out,
            r.edition,
            r.frame,
            first,
            r.z as usize,
        )),
        _ => ask(r, first),
    }
}
