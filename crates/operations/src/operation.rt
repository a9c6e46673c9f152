// An operation with its operands: checked, sized, and written into a lent output.
ghost use Rattle.std.specs.Prelude.{◌≡◌, true, ◌&&◌, ◌+◌, ◌*◌, ◌<◌, ◌^◌, length};
ghost use Rattle.emit.specs.Answers.{granted, Answers};
ghost use Rattle.emit.specs.Emitted.{fields_list, Emitted};
ghost use Rattle.layout.specs.Config.{Supported};
ghost use Rattle.layout.specs.Positions.{operand_ok};
ghost use Rattle.operations.specs.Operations.{operation_records, operands_allowed, operation_answer, Operates};

use code::emitters;
use code::emitters::Condition;
use emit::answer::{Answer, Refusal, Written};
use emit::cursor::{Cursor, Row};
use layout::config::Shape;
use records::number::{JMPL, JMPLN, LAB};

// The operations of code.rs but print_i64. Operands are words, labels are those of records, immediates 64-bit two's complement.
#[derive(Clone, Copy)]
pub enum Operation {
    Label(u32),
    Jump(u64),
    JumpLabel(u32),
    JumpLabelFixed(u32),
    // two operands
    JumpLabelIf(Condition, u64, u64, u32),
    // an operand and zero
    JumpLabelIfZero(Condition, u64, u32),
    LoadImmediate(u64, u64),
    LoadLabel(u64, u32),
    AddAndJump(u64, u64),
    // target, first source, second source
    Arithmetic(records::order::Calculation, u64, u64, u64),
    // target, source
    Mov(u64, u64),
    Compare(u64, u64),
    CompareImmediate(u64, u64),
}

// Whether two words are operands that a caller may give.
fn two_ok(g: Shape, x: u64, y: u64) -> bool
    ensures { result ≡ operand_ok g x && operand_ok g y }
{
    layout::utils::operand_ok(g, x) && layout::utils::operand_ok(g, y)
}

// Whether its operands are those that a caller may give, and its label one that a record may hold.
#[tactic(auto, unfolding(crate::specs::Operations::operands_allowed))]
fn operands_ok(g: Shape, operation: Operation) -> bool
    ensures { result ≡ operands_allowed g operation }
{
    match operation {
        Operation::Label(l) => records::code::label_held(l),
        Operation::Jump(w) => layout::utils::operand_ok(g, w),
        Operation::JumpLabel(l) => records::code::label_held(l),
        Operation::JumpLabelFixed(l) => records::code::label_held(l),
        Operation::JumpLabelIf(_, x, y, l) => two_ok(g, x, y) && records::code::label_held(l),
        Operation::JumpLabelIfZero(_, w, l) => layout::utils::operand_ok(g, w)
            && records::code::label_held(l),
        Operation::LoadImmediate(w, _) => layout::utils::operand_ok(g, w),
        Operation::LoadLabel(w, l) => layout::utils::operand_ok(g, w)
            && records::code::label_held(l),
        Operation::AddAndJump(w, _) => layout::utils::operand_ok(g, w),
        Operation::Arithmetic(_, w, x, y) => layout::utils::operand_ok(g, w) && two_ok(g, x, y),
        Operation::Mov(w, x) => two_ok(g, w, x),
        Operation::Compare(x, y) => two_ok(g, x, y),
        Operation::CompareImmediate(w, _) => layout::utils::operand_ok(g, w),
    }
}

fn emit_operation(out: &mut [u8], p: Cursor, g: Shape, operation: Operation) -> Cursor
    requires { (p.at + 216 < 2 ^ 64) × (operands_allowed g operation ≡ true) × Supported g }
    ensures { Emitted out.old p out.new result (fields_list (operation_records g operation)) 0 }
{
    match operation {
        Operation::Label(l) => emit::cursor::emit(out, p, Row(LAB, 0, 0, l, 0, 0)),
        Operation::Jump(w) => emitters::emit_jump(out, p, g, w),
        Operation::JumpLabel(l) => emit::cursor::emit(out, p, Row(JMPL, 0, 0, l, 0, 0)),
        Operation::JumpLabelFixed(l) => emit::cursor::emit(out, p, Row(JMPLN, 0, 0, l, 0, 0)),
        Operation::JumpLabelIf(k, x, y, l) => emitters::emit_jump_label_if(out, p, g, k, x, y, l),
        Operation::JumpLabelIfZero(k, w, l) => emitters::emit_jump_label_if_zero(
            out, p, g, k, w, l,
        ),
        Operation::LoadImmediate(w, value) => emitters::emit_load_immediate(out, p, g, w, value),
        Operation::LoadLabel(w, l) => emitters::emit_load_label(out, p, g, w, l),
        Operation::AddAndJump(w, value) => emitters::emit_add_and_jump(out, p, g, w, value),
        Operation::Arithmetic(o, w, x, y) => emitters::emit_arithmetic(out, p, g, o, w, x, y),
        Operation::Mov(w, x) => emitters::emit_mov(out, p, g, w, x),
        Operation::Compare(x, y) => emitters::emit_compare(out, p, g, x, y),
        Operation::CompareImmediate(w, value) => emitters::emit_compare_immediate(
            out, p, g, w, value,
        ),
    }
}

// In a frame of so many spills. No operation here draws a label: none takes a counter, and the answer's is 0.
pub fn operate(out: &mut [u8], frame: u64, operation: Operation) -> Answer
    ensures { Operates frame out.old out.new result operation }
{
    let g = layout::config::frame_of(frame).ok_or(Refusal::Operand)?;
    operate_in(out, g, operation)
}

fn operate_in(out: &mut [u8], g: Shape, operation: Operation) -> Answer
    requires { Supported g }
    ensures { Answers out.old out.new result (operation_answer g (length out.old) operation) (operation_records g operation) }
{
    if !operands_ok(g, operation) {
        return Err(Refusal::Operand);
    }
    if emit::answer::ample(0, out.len(), 0, emitters::MOST_RECORDS) {
        let q = emit_operation(out, Cursor { at: 0, counter: 0 }, g, operation);
        return Ok(Written::up_to(q));
    }
    operate_sized(out, g, operation)
}

// A first pass on another output tells the size, and the second writes.
fn operate_sized(out: &mut [u8], g: Shape, operation: Operation) -> Answer
    requires { (operands_allowed g operation ≡ true) × Supported g }
    ensures { Answers out.old out.new result (granted 0 (length out.old) (24 * length (operation_records g operation)) 0) (operation_records g operation) }
{
    let mut none = [0u8; 1];
    let need = emit_operation(&mut none, Cursor { at: 0, counter: 0 }, g, operation);
    let written = emit::answer::grant(0, out.len(), need)?;
    emit_operation(out, Cursor { at: 0, counter: 0 }, g, operation);
    Ok(written)
}
