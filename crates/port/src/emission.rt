// The operations of code.rs, memory.rs and into_routine.rs for C and Rust. Each answers the scope's number, 0 where its records are written;
// the value beside it is how many they are, the place of a bad record, or the bytes needed. An operation goes by a number.
ghost use Rattle.std.specs.Prelude.{◌≡◌, length};
ghost use Rattle.operations.specs.Operations.{operate_in, operation_records_in};
ghost use Rattle.print_i64.specs.Print.{print_in, print_records_in};
ghost use Rattle.routine.specs.Routine.{routine_in, routine_bytes_in};
ghost use Rattle.port_numbers.specs.Emission.{counter_after, operation_numbered, memory_answer, memory_records};
ghost use Rattle.port.specs.Emission.{Tells, TellsRoutine};

// The operations of code.rs but print_i64. Operands stand in the Rust's sequence, the target first; those that an operation lacks are not read.
pub fn axcut_operation(
    frame: u64,
    operation: u64,
    first: u64,
    second: u64,
    third: u64,
    label: u32,
    immediate: u64,
    out: &mut [u8],
    value: &mut u64,
) -> u64
    ensures { Tells out.old out.new result value.new (operate_in frame (length out.old) (operation_numbered operation first second third label immediate)) (operation_records_in frame (operation_numbered operation first second third label immediate)) }
{
    let chosen = port_numbers::emission::operation_numbered(
        operation, first, second, third, label, immediate,
    );
    let answer = operations::operation::operate(out, frame, chosen);
    port_numbers::emission::told(answer, value)
}

// The operations of memory.rs: erase_block and share_block_n of an operand; a store of the context's last n variables and a load after the context, in the blocks
// of an edition.
pub fn axcut_memory(
    edition: u64,
    frame: u64,
    operation: u64,
    operand: u64,
    n: u64,
    context: &[u8],
    loaded: &[u8],
    counter: &mut u64,
    out: &mut [u8],
    value: &mut u64,
) -> u64
    ensures answer { Tells out.old out.new result value.new (memory_answer edition frame operation counter.old (length out.old) operand n context.now loaded.now) (memory_records edition frame operation counter.old operand n context.now loaded.now) }
    ensures counter { counter.new ≡ counter_after counter.old (memory_answer edition frame operation counter.old (length out.old) operand n context.now loaded.now) }
{
    let before = *counter;
    let answer = port_numbers::emission::memory(
        out, edition, frame, operation, before, operand, n, context, loaded,
    );
    *counter = port_numbers::emission::counter_after(answer, before);
    port_numbers::emission::told(answer, value)
}

pub fn axcut_print(
    frame: u64,
    newline: bool,
    source: u64,
    context: &[u8],
    out: &mut [u8],
    value: &mut u64,
) -> u64
    ensures { Tells out.old out.new result value.new (print_in frame (length out.old) newline source context.now) (print_records_in frame newline source context.now) }
{
    let answer = print_i64::code::print_i64(out, frame, newline, source, context);
    port_numbers::emission::told(answer, value)
}

pub fn axcut_routine(
    edition: u64,
    frame: u64,
    body: &[u8],
    arguments: usize,
    out: &mut [u8],
    value: &mut u64,
) -> u64
    ensures { TellsRoutine out.old out.new result value.new (routine_in edition frame (length out.old) arguments body.now) (routine_bytes_in edition frame arguments body.now) }
{
    let answer = routine::into_routine::into_x86_64_routine(out, edition, frame, body, arguments);
    port_numbers::emission::told(answer, value)
}
