// The static library for C and Rust, with include/axcut.h: each function of `port` under its own name, with its clauses. Kept beside `port`, on which other
// crates stand: the C interface.
#![tactic(auto)]

ghost use Rattle.std.specs.Prelude.{◌≡◌, [], ◌∷◌, length};
ghost use Rattle.records.specs.Bytes.{stored};
ghost use Rattle.listing.specs.Names.{code_names};
ghost use Rattle.listing.specs.Listing.{listed, listed_text};
ghost use Rattle.machine_step.specs.View.{view, words_of};
ghost use Rattle.layout.specs.Config.{edition_of, frame_on, shape_of, shape_on, HEAP, FREE};
ghost use Rattle.operations.specs.Operations.{operate_in, operation_records_in};
ghost use Rattle.print_i64.specs.Print.{print_in, print_records_in};
ghost use Rattle.routine.specs.Routine.{routine_in, routine_bytes_in};
ghost use Rattle.order.specs.Answers.{asking};
ghost use Rattle.port_numbers.specs.Numbers.{number_in, value_in};
ghost use Rattle.port_numbers.specs.List.{listed_numbers};
ghost use Rattle.port_numbers.specs.Emission.{counter_after, operation_numbered, memory_answer, memory_records};
ghost use Rattle.port.specs.Blocks.{TellsBlocks};
ghost use Rattle.port.specs.Run.{StartsRun, Gives};
ghost use Rattle.port.specs.Check.{check_numbers};
ghost use Rattle.port.specs.Emission.{Tells, TellsRoutine};
ghost use Rattle.port.specs.Query.{query_numbers};
ghost use Rattle.port.specs.Order.{TellsOrder};

#[unsafe(no_mangle)]
pub extern "C" fn axcut_list(records: &[u8], text: &mut [u8], value: &mut u64) -> u64
    ensures number { result ≡ number_in (listed_numbers (listed code_names records.now (length text.old))) }
    ensures value { value.new ≡ value_in (listed_numbers (listed code_names records.now (length text.old))) }
    ensures written { text.new ≡ stored text.old 0 (listed_text code_names records.now) }
{
    port::axcut_list(records, text, value)
}

#[unsafe(no_mangle)]
pub extern "C" fn axcut_start(
    edition: u64,
    frame: u64,
    fresh: bool,
    registers: &mut [u64; 16],
    stack: &mut [u64],
) -> u64
    ensures { StartsRun (shape_on edition frame (length stack.old)) fresh result registers.old registers.new stack.old stack.new }
{
    port::axcut_start(edition, frame, fresh, registers, stack)
}

#[unsafe(no_mangle)]
pub extern "C" fn axcut_run(
    edition: u64,
    frame: u64,
    records: &[u8],
    registers: &mut [u64; 16],
    stack: &mut [u64],
    heap: &mut [u64],
    words: &[u64; 9],
    limit: u64,
    steps: &mut u64,
    place: &mut u64,
) -> u64
    ensures { Gives (edition_of edition) (frame_on frame (length stack.old)) (words_of words.now) records.now limit (view registers.old stack.old heap.old) (view registers.new stack.new heap.new) result steps.new place.new }
{
    port::axcut_run(
        edition, frame, records, registers, stack, heap, words, limit, steps, place,
    )
}

#[unsafe(no_mangle)]
pub extern "C" fn axcut_blocks(
    edition: u64,
    registers: &[u64; 16],
    heap: &[u64],
    counts: &mut [u64; 5],
) -> u64
    ensures { TellsBlocks (edition_of edition) (length heap.now) (words_of heap.now) (words_of registers.now HEAP) (words_of registers.now FREE) result counts.old counts.new }
{
    port::axcut_blocks(edition, registers, heap, counts)
}

#[unsafe(no_mangle)]
pub extern "C" fn axcut_check(kind: u64, bytes: &[u8], place: &mut u64) -> u64
    ensures { result ∷ place.new ∷ [] ≡ check_numbers kind bytes.now }
{
    port::check::axcut_check(kind, bytes, place)
}

#[unsafe(no_mangle)]
pub extern "C" fn axcut_operation(
    frame: u64,
    operation: u64,
    first: u64,
    second: u64,
    third: u64,
    label: u32,
    immediate: u64,
    out: &mut [u8],
    value: &mut u64,
) -> u64
    ensures { Tells out.old out.new result value.new (operate_in frame (length out.old) (operation_numbered operation first second third label immediate)) (operation_records_in frame (operation_numbered operation first second third label immediate)) }
{
    port::emission::axcut_operation(
        frame, operation, first, second, third, label, immediate, out, value,
    )
}

#[unsafe(no_mangle)]
pub extern "C" fn axcut_memory(
    edition: u64,
    frame: u64,
    operation: u64,
    operand: u64,
    n: u64,
    context: &[u8],
    loaded: &[u8],
    counter: &mut u64,
    out: &mut [u8],
    value: &mut u64,
) -> u64
    ensures answer { Tells out.old out.new result value.new (memory_answer edition frame operation counter.old (length out.old) operand n context.now loaded.now) (memory_records edition frame operation counter.old operand n context.now loaded.now) }
    ensures counter { counter.new ≡ counter_after counter.old (memory_answer edition frame operation counter.old (length out.old) operand n context.now loaded.now) }
{
    port::emission::axcut_memory(
        edition, frame, operation, operand, n, context, loaded, counter, out, value,
    )
}

#[unsafe(no_mangle)]
pub extern "C" fn axcut_print(
    frame: u64,
    newline: bool,
    source: u64,
    context: &[u8],
    out: &mut [u8],
    value: &mut u64,
) -> u64
    ensures { Tells out.old out.new result value.new (print_in frame (length out.old) newline source context.now) (print_records_in frame newline source context.now) }
{
    port::emission::axcut_print(frame, newline, source, context, out, value)
}

#[unsafe(no_mangle)]
pub extern "C" fn axcut_routine(
    edition: u64,
    frame: u64,
    body: &[u8],
    arguments: usize,
    out: &mut [u8],
    value: &mut u64,
) -> u64
    ensures { TellsRoutine out.old out.new result value.new (routine_in edition frame (length out.old) arguments body.now) (routine_bytes_in edition frame arguments body.now) }
{
    port::emission::axcut_routine(edition, frame, body, arguments, out, value)
}

#[unsafe(no_mangle)]
pub extern "C" fn axcut_query(
    edition: u64,
    frame: u64,
    query: u64,
    second: bool,
    at: u64,
    id: u32,
    context: &[u8],
    value: &mut u64,
) -> u64
    ensures { result ∷ value.new ∷ [] ≡ query_numbers edition frame query second at id context.now }
{
    port::query::axcut_query(edition, frame, query, second, at, id, context, value)
}

#[unsafe(no_mangle)]
pub extern "C" fn axcut_order(
    edition: u64,
    frame: u64,
    context: &[u8],
    order: &[u8],
    bindings: &[u8],
    counter: &mut u64,
    records_out: &mut [u8],
    context_out: &mut [u8],
    value: &mut u64,
    count: &mut u64,
) -> u64
    ensures { TellsOrder (shape_of edition frame) context.now (asking order.now bindings.now counter.old records_out.old context_out.old) result value.new count.new counter.new records_out.old records_out.new context_out.old context_out.new }
{
    port::orders::axcut_order(
        edition,
        frame,
        context,
        order,
        bindings,
        counter,
        records_out,
        context_out,
        value,
        count,
    )
}
