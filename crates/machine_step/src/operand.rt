// The operands of an instruction: a register, a word of memory or a value, by the number of its form.
ghost use Rattle.std.specs.Prelude.{length, ◌≡◌, ◌<◌};
ghost use Rattle.machine_step.specs.View.{view};
ghost use Rattle.machine_step.specs.Memory.{value_of, assigned};
ghost use Rattle.machine_step.specs.Forms.{operand_of, named, Sized, Wrote};

use crate::memory;
use records::code::Fields;

// The register that a form names, or whose word it adds the offset to: a for the even forms, b for the odd ones. Two comparisons and this choice
// compile to fewer jumps than a match on the form.
#[tactic(auto, unfolding(crate::specs::Forms::named))]
fn register_of(form: u8, f: Fields) -> usize
    requires { (f.a < 16) × (f.b < 16) }
    ensures { (result < 16) × (result ≡ named form f) }
{
    if form % 2 == 0 {
        f.a as usize
    } else {
        f.b as usize
    }
}

pub fn operand(
    form: u8,
    f: Fields,
    registers: &[u64; 16],
    stack: &[u64],
    heap: &[u64],
) -> Option<u64>
    requires { (f.a < 16) × (f.b < 16) }
    ensures { result ≡ value_of (view registers.now stack.now heap.now) (operand_of form f) }
{
    let i = register_of(form, f);
    if form < 2 {
        return Some(registers[i]);
    }
    if form < 4 {
        return memory::load(stack, heap, word::sum(registers[i], f.offset));
    }
    Some(f.value)
}

// Whether v was written.
pub fn assign(
    form: u8,
    f: Fields,
    registers: &mut [u64; 16],
    stack: &mut [u64],
    heap: &mut [u64],
    v: u64,
) -> bool
    requires { (f.a < 16) × (f.b < 16) × (length registers.old ≡ 16) }
    ensures { Sized (length stack.old) registers.new stack.new × Wrote (view registers.old stack.old heap.old) (assigned (view registers.old stack.old heap.old) (operand_of form f) v) (view registers.new stack.new heap.new) result }
{
    let i = register_of(form, f);
    if form < 2 {
        registers[i] = v;
        return true;
    }
    if form < 4 {
        return memory::store(stack, heap, word::sum(registers[i], f.offset), v);
    }
    false
}
