// The operations of code.rs and memory.rs by number, and the answers of every operation as numbers.
// Kept: a number, and its value through `&mut`, as the C interface gives them.
ghost use Rattle.std.specs.Prelude.{◌≡◌, [], ◌∷◌, length};
ghost use Rattle.emit.specs.Answers.{Answers};
ghost use Rattle.port_numbers.specs.Emission.{answer_numbers, counter_after, operation_numbered, memory_answer, memory_records};

use crate::check;
use code::emitters::Condition;
use emit::answer::{Answer, Refusal};
use layout::config;
use operations::operation::Operation;
use records::order;

// An answer as its number, and the value that goes with it.
pub fn told(answer: Answer, value: &mut u64) -> u64
    ensures { result ∷ value.new ∷ [] ≡ answer_numbers answer }
{
    *value = 0;
    match answer {
        Ok(written) => {
            *value = written.records as u64;
            0
        }
        Err(Refusal::Context(flaw)) => check::flaw_told(flaw, value),
        Err(Refusal::Body(place)) => {
            *value = place as u64;
            2
        }
        Err(Refusal::Operand) => 3,
        Err(Refusal::Missing) => 4,
        Err(Refusal::Arguments) => 6,
        Err(Refusal::Count) => 7,
        Err(Refusal::Position) => 8,
        Err(Refusal::Labels) => 9,
        Err(Refusal::Room(bytes)) => {
            *value = bytes as u64;
            10
        }
        Err(Refusal::Edition) => 23,
    }
}

// The counter after an answer: a refusal keeps it.
pub fn counter_after(answer: Answer, counter: u64) -> u64
    ensures { result ≡ counter_after counter answer }
{
    match answer {
        Ok(written) => written.counter,
        Err(_) => counter,
    }
}

// A number that names no operation gives one that is refused.
#[tactic(auto, unfolding(crate::specs::Emission::operation_numbered))]
pub fn operation_numbered(
    operation: u64,
    first: u64,
    second: u64,
    third: u64,
    label: u32,
    immediate: u64,
) -> Operation
    ensures { result ≡ operation_numbered operation first second third label immediate }
{
    match operation {
        1 => Operation::Label(label),
        2 => Operation::Jump(first),
        3 => Operation::JumpLabel(label),
        4 => Operation::JumpLabelFixed(label),
        5 => Operation::JumpLabelIf(Condition::Equal, first, second, label),
        6 => Operation::JumpLabelIf(Condition::NotEqual, first, second, label),
        7 => Operation::JumpLabelIf(Condition::Less, first, second, label),
        8 => Operation::JumpLabelIf(Condition::LessOrEqual, first, second, label),
        9 => Operation::JumpLabelIf(Condition::Greater, first, second, label),
        10 => Operation::JumpLabelIf(Condition::GreaterOrEqual, first, second, label),
        11 => Operation::JumpLabelIfZero(Condition::Equal, first, label),
        12 => Operation::JumpLabelIfZero(Condition::NotEqual, first, label),
        13 => Operation::JumpLabelIfZero(Condition::Less, first, label),
        14 => Operation::JumpLabelIfZero(Condition::LessOrEqual, first, label),
        15 => Operation::JumpLabelIfZero(Condition::Greater, first, label),
        16 => Operation::JumpLabelIfZero(Condition::GreaterOrEqual, first, label),
        17 => Operation::LoadImmediate(first, immediate),
        18 => Operation::LoadLabel(first, label),
        19 => Operation::AddAndJump(first, immediate),
        20 => Operation::Arithmetic(order::Calculation::Add, first, second, third),
        21 => Operation::Arithmetic(order::Calculation::Sub, first, second, third),
        22 => Operation::Arithmetic(order::Calculation::Mul, first, second, third),
        23 => Operation::Arithmetic(order::Calculation::Div, first, second, third),
        24 => Operation::Arithmetic(order::Calculation::Rem, first, second, third),
        25 => Operation::Mov(first, second),
        26 => Operation::Compare(first, second),
        27 => Operation::CompareImmediate(first, immediate),
        _ => Operation::Label(0),
    }
}

pub fn memory(
    out: &mut [u8],
    edition: u64,
    frame: u64,
    operation: u64,
    counter: u64,
    operand: u64,
    n: u64,
    context: &[u8],
    loaded: &[u8],
) -> Answer
    ensures { Answers out.old out.new result (memory_answer edition frame operation counter (length out.old) operand n context.now loaded.now) (memory_records edition frame operation counter operand n context.now loaded.now) }
{
    if config::edition_of(edition).is_none() {
        return Err(Refusal::Edition);
    }
    match operation {
        1 => memory::block::erase_block(out, frame, counter, operand),
        2 => memory::block::share_block_n(out, frame, counter, operand, n),
        3 => memory_store::store::store(out, edition, frame, counter, context, n),
        4 => memory_load::load::load(out, edition, frame, counter, loaded, context),
        _ => Err(Refusal::Operand),
    }
}
