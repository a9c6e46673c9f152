// The operations of code.rs by name, each an answer and its records in a lent output. An immediate is 64-bit two's complement. Those with an operand go by the
// frame's number of spills. Kept one by one: they are the names that code.rs has and the documents give.
ghost use Rattle.records.specs.declared.order.Calculation.TheVariants.{Add, Sub, Mul, Div, Rem};
ghost use Rattle.code.specs.declared.emitters.Condition.TheVariants.{Equal, NotEqual, Less, LessOrEqual, Greater, GreaterOrEqual};
ghost use Rattle.layout.specs.Config.{base};
ghost use Rattle.operations.specs.declared.operation.Operation.TheVariants.{Label, Jump, JumpLabel, JumpLabelFixed, JumpLabelIf, JumpLabelIfZero, LoadImmediate, LoadLabel, AddAndJump, Arithmetic, Mov, Compare, CompareImmediate};
ghost use Rattle.operations.specs.Operations.{Operates};

use crate::operation;
use crate::operation::Operation;
use code::emitters::Condition;
use emit::answer::Answer;
use records::order;

// Where no operand is given, the records are those of every frame.
const ANY_FRAME: u64 = 256;

pub fn label(out: &mut [u8], name: u32) -> Answer
    ensures { Operates base.spills out.old out.new result (Label name) }
{
    operation::operate(out, ANY_FRAME, Operation::Label(name))
}

pub fn jump(out: &mut [u8], frame: u64, temporary: u64) -> Answer
    ensures { Operates frame out.old out.new result (Jump temporary) }
{
    operation::operate(out, frame, Operation::Jump(temporary))
}

pub fn jump_label(out: &mut [u8], name: u32) -> Answer
    ensures { Operates base.spills out.old out.new result (JumpLabel name) }
{
    operation::operate(out, ANY_FRAME, Operation::JumpLabel(name))
}

pub fn jump_label_fixed(out: &mut [u8], name: u32) -> Answer
    ensures { Operates base.spills out.old out.new result (JumpLabelFixed name) }
{
    operation::operate(out, ANY_FRAME, Operation::JumpLabelFixed(name))
}

pub fn jump_label_if_equal(out: &mut [u8], frame: u64, fst: u64, snd: u64, name: u32) -> Answer
    ensures { Operates frame out.old out.new result (JumpLabelIf Equal fst snd name) }
{
    operation::operate(
        out,
        frame,
        Operation::JumpLabelIf(Condition::Equal, fst, snd, name),
    )
}

pub fn jump_label_if_not_equal(out: &mut [u8], frame: u64, fst: u64, snd: u64, name: u32) -> Answer
    ensures { Operates frame out.old out.new result (JumpLabelIf NotEqual fst snd name) }
{
    operation::operate(
        out,
        frame,
        Operation::JumpLabelIf(Condition::NotEqual, fst, snd, name),
    )
}

pub fn jump_label_if_less(out: &mut [u8], frame: u64, fst: u64, snd: u64, name: u32) -> Answer
    ensures { Operates frame out.old out.new result (JumpLabelIf Less fst snd name) }
{
    operation::operate(
        out,
        frame,
        Operation::JumpLabelIf(Condition::Less, fst, snd, name),
    )
}

pub fn jump_label_if_less_or_equal(
    out: &mut [u8],
    frame: u64,
    fst: u64,
    snd: u64,
    name: u32,
) -> Answer
    ensures { Operates frame out.old out.new result (JumpLabelIf LessOrEqual fst snd name) }
{
    operation::operate(
        out,
        frame,
        Operation::JumpLabelIf(Condition::LessOrEqual, fst, snd, name),
    )
}

pub fn jump_label_if_greater(out: &mut [u8], frame: u64, fst: u64, snd: u64, name: u32) -> Answer
    ensures { Operates frame out.old out.new result (JumpLabelIf Greater fst snd name) }
{
    operation::operate(
        out,
        frame,
        Operation::JumpLabelIf(Condition::Greater, fst, snd, name),
    )
}

pub fn jump_label_if_greater_or_equal(
    out: &mut [u8],
    frame: u64,
    fst: u64,
    snd: u64,
    name: u32,
) -> Answer
    ensures { Operates frame out.old out.new result (JumpLabelIf GreaterOrEqual fst snd name) }
{
    operation::operate(
        out,
        frame,
        Operation::JumpLabelIf(Condition::GreaterOrEqual, fst, snd, name),
    )
}

pub fn jump_label_if_zero(out: &mut [u8], frame: u64, temporary: u64, name: u32) -> Answer
    ensures { Operates frame out.old out.new result (JumpLabelIfZero Equal temporary name) }
{
    operation::operate(
        out,
        frame,
        Operation::JumpLabelIfZero(Condition::Equal, temporary, name),
    )
}

pub fn jump_label_if_not_zero(out: &mut [u8], frame: u64, temporary: u64, name: u32) -> Answer
    ensures { Operates frame out.old out.new result (JumpLabelIfZero NotEqual temporary name) }
{
    operation::operate(
        out,
        frame,
        Operation::JumpLabelIfZero(Condition::NotEqual, temporary, name),
    )
}

pub fn jump_label_if_less_zero(out: &mut [u8], frame: u64, temporary: u64, name: u32) -> Answer
    ensures { Operates frame out.old out.new result (JumpLabelIfZero Less temporary name) }
{
    operation::operate(
        out,
        frame,
        Operation::JumpLabelIfZero(Condition::Less, temporary, name),
    )
}

pub fn jump_label_if_less_or_equal_zero(
    out: &mut [u8],
    frame: u64,
    temporary: u64,
    name: u32,
) -> Answer
    ensures { Operates frame out.old out.new result (JumpLabelIfZero LessOrEqual temporary name) }
{
    operation::operate(
        out,
        frame,
        Operation::JumpLabelIfZero(Condition::LessOrEqual, temporary, name),
    )
}

pub fn jump_label_if_greater_zero(out: &mut [u8], frame: u64, temporary: u64, name: u32) -> Answer
    ensures { Operates frame out.old out.new result (JumpLabelIfZero Greater temporary name) }
{
    operation::operate(
        out,
        frame,
        Operation::JumpLabelIfZero(Condition::Greater, temporary, name),
    )
}

pub fn jump_label_if_greater_or_equal_zero(
    out: &mut [u8],
    frame: u64,
    temporary: u64,
    name: u32,
) -> Answer
    ensures { Operates frame out.old out.new result (JumpLabelIfZero GreaterOrEqual temporary name) }
{
    operation::operate(
        out,
        frame,
        Operation::JumpLabelIfZero(Condition::GreaterOrEqual, temporary, name),
    )
}

pub fn load_immediate(out: &mut [u8], frame: u64, temporary: u64, immediate: u64) -> Answer
    ensures { Operates frame out.old out.new result (LoadImmediate temporary immediate) }
{
    operation::operate(out, frame, Operation::LoadImmediate(temporary, immediate))
}

pub fn load_label(out: &mut [u8], frame: u64, temporary: u64, name: u32) -> Answer
    ensures { Operates frame out.old out.new result (LoadLabel temporary name) }
{
    operation::operate(out, frame, Operation::LoadLabel(temporary, name))
}

pub fn add_and_jump(out: &mut [u8], frame: u64, temporary: u64, immediate: u64) -> Answer
    ensures { Operates frame out.old out.new result (AddAndJump temporary immediate) }
{
    operation::operate(out, frame, Operation::AddAndJump(temporary, immediate))
}

pub fn add(out: &mut [u8], frame: u64, target: u64, source_1: u64, source_2: u64) -> Answer
    ensures { Operates frame out.old out.new result (Arithmetic Add target source_1 source_2) }
{
    operation::operate(
        out,
        frame,
        Operation::Arithmetic(order::Calculation::Add, target, source_1, source_2),
    )
}

pub fn sub(out: &mut [u8], frame: u64, target: u64, source_1: u64, source_2: u64) -> Answer
    ensures { Operates frame out.old out.new result (Arithmetic Sub target source_1 source_2) }
{
    operation::operate(
        out,
        frame,
        Operation::Arithmetic(order::Calculation::Sub, target, source_1, source_2),
    )
}

pub fn mul(out: &mut [u8], frame: u64, target: u64, source_1: u64, source_2: u64) -> Answer
    ensures { Operates frame out.old out.new result (Arithmetic Mul target source_1 source_2) }
{
    operation::operate(
        out,
        frame,
        Operation::Arithmetic(order::Calculation::Mul, target, source_1, source_2),
    )
}

pub fn div(out: &mut [u8], frame: u64, target: u64, source_1: u64, source_2: u64) -> Answer
    ensures { Operates frame out.old out.new result (Arithmetic Div target source_1 source_2) }
{
    operation::operate(
        out,
        frame,
        Operation::Arithmetic(order::Calculation::Div, target, source_1, source_2),
    )
}

pub fn rem(out: &mut [u8], frame: u64, target: u64, source_1: u64, source_2: u64) -> Answer
    ensures { Operates frame out.old out.new result (Arithmetic Rem target source_1 source_2) }
{
    operation::operate(
        out,
        frame,
        Operation::Arithmetic(order::Calculation::Rem, target, source_1, source_2),
    )
}

pub fn mov(out: &mut [u8], frame: u64, target: u64, source: u64) -> Answer
    ensures { Operates frame out.old out.new result (Mov target source) }
{
    operation::operate(out, frame, Operation::Mov(target, source))
}

pub fn compare(out: &mut [u8], frame: u64, fst: u64, snd: u64) -> Answer
    ensures { Operates frame out.old out.new result (Compare fst snd) }
{
    operation::operate(out, frame, Operation::Compare(fst, snd))
}

pub fn compare_immediate(out: &mut [u8], frame: u64, temporary: u64, immediate: u64) -> Answer
    ensures { Operates frame out.old out.new result (CompareImmediate temporary immediate) }
{
    operation::operate(
        out,
        frame,
        Operation::CompareImmediate(temporary, immediate),
    )
}
