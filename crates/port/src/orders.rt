// The seven orders for C and Rust: an order's bytes with the context, the label counter and the bindings that follow it.
ghost use Rattle.order.specs.Answers.{asking};
ghost use Rattle.layout.specs.Config.{shape_of};
ghost use Rattle.port.specs.Order.{TellsOrder};

// Its records go into one output, the context after it into the other.
pub fn axcut_order(
    edition: u64,
    frame: u64,
    context: &[u8],
    order: &[u8],
    bindings: &[u8],
    counter: &mut u64,
    records_out: &mut [u8],
    context_out: &mut [u8],
    value: &mut u64,
    count: &mut u64,
) -> u64
    ensures { TellsOrder (shape_of edition frame) context.now (asking order.now bindings.now counter.old records_out.old context_out.old) result value.new count.new counter.new records_out.old records_out.new context_out.old context_out.new }
{
    let before = *counter;
    let answer = order::order::order(
        records_out,
        context_out,
        edition,
        frame,
        context,
        before,
        order,
        bindings,
    );
    *counter = port_numbers::order::counter_after(answer, before);
    port_numbers::order::told(answer, value, count)
}
