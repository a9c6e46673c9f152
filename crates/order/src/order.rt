// An order as its bytes, answered: its records in one output, the context after it in another.
ghost use Rattle.std.specs.Prelude.{◌≡◌, true, false, ◌*◌, ◌/◌, ◌%◌, ◌<◌, ◌^◌, Ok, Err};
ghost use Rattle.records.specs.Contexts.{checked_context};
ghost use Rattle.records.specs.Orders.{wanted};
ghost use Rattle.layout.specs.declared.config.Shape.{Shape};
ghost use Rattle.layout.specs.declared.config.Unshaped.TheVariants.{NoEdition};
ghost use Rattle.layout.specs.Config.{Supported, shape_of, in_shape};
ghost use Rattle.order_spec.specs.Answered.{fitting, order_accepted};
ghost use Rattle.order.specs.Answers.{asking, AnswersOrder};
ghost use Rattle.order.specs.Begun.{Begins};
ghost use Rattle.order.specs.Decided.{Writable, Writes, Judges};

use emit::cursor::Cursor;
use layout::config::{Shape, Unshaped};
use order_check::{after, checks};
use order_emit::{bounds, emitters};
use order_spec::answer::{Accepted, OrderAnswer, OrderRefusal};
use records::context;
use records::name::LAST_LABEL;
use records::order::Order;

// 9 and 10: need is the cursor past the records, from a cursor at 0 and counter 0; `count` bindings come after them.
fn grant(counter: u64, room: usize, context_room: usize, need: Cursor, count: u64) -> OrderAnswer
    requires { (need.at % 24 ≡ 0) × (need.counter < 2 ^ 32) × (count < 2 ^ 32) }
    ensures { result ≡ fitting counter room context_room (need.at / 24) need.counter (8 * count) }
{
    if LAST_LABEL < counter {
        return Err(OrderRefusal::Labels);
    }
    let drawn = counter + need.counter;
    if LAST_LABEL < drawn {
        return Err(OrderRefusal::Labels);
    }
    if room < need.at {
        return Err(OrderRefusal::Room(need.at));
    }
    let bytes = (8 * count) as usize;
    if context_room < bytes {
        return Err(OrderRefusal::Room(bytes));
    }
    Ok(Accepted {
        records: need.at / 24,
        counter: drawn,
        bindings: count as usize,
    })
}

// Whether an order is written. Kept beside `is_ok`: its clause says it in the definition's word.
pub fn is_accepted(answer: OrderAnswer) -> bool
    ensures { result ≡ order_accepted answer }
{
    match answer {
        Ok(_) => true,
        Err(_) => false,
    }
}

// An order that is read, on the k variables of a context, and the label counter before it.
#[derive(Clone, Copy)]
pub struct Work {
    pub k: u64,
    pub counter: u64,
    pub order: Order,
}

// An order that nothing but labels or room can refuse: written at once where neither can be wanting.
fn write_order(
    records_out: &mut [u8],
    context_out: &mut [u8],
    g: Shape,
    context: &[u8],
    bindings: &[u8],
    work: Work,
) -> OrderAnswer
    requires { Writable g context.now bindings.now work }
    ensures { Writes g context.now bindings.now work result records_out.old records_out.new context_out.old context_out.new }
{
    let Work { k, counter, order } = work;
    let count = after::count_after(k, order);
    let ample = bounds::order_ample(g, counter, records_out.len(), k, order);
    if ample && 8 * count <= context_out.len() as u64 {
        let q = emitters::emit_order(records_out, counter, g, context, k, bindings, order);
        after::write_context(context_out, context, k, bindings, order);
        return Ok(Accepted {
            records: q.at / 24,
            counter: q.counter,
            bindings: count as usize,
        });
    }
    write_sized(records_out, context_out, g, context, bindings, work)
}

// A first pass on another output tells the records' size, and a second writes them.
fn write_sized(
    records_out: &mut [u8],
    context_out: &mut [u8],
    g: Shape,
    context: &[u8],
    bindings: &[u8],
    work: Work,
) -> OrderAnswer
    requires { Writable g context.now bindings.now work }
    ensures { Writes g context.now bindings.now work result records_out.old records_out.new context_out.old context_out.new }
{
    let Work { k, counter, order } = work;
    let mut none = [0u8; 1];
    let need = emitters::emit_order(&mut none, 0, g, context, k, bindings, order);
    let count = after::count_after(k, order);
    let answer = grant(counter, records_out.len(), context_out.len(), need, count);
    if !is_accepted(answer) {
        return answer;
    }
    emitters::emit_order(records_out, counter, g, context, k, bindings, order);
    after::write_context(context_out, context, k, bindings, order);
    answer
}

// An order with as many bindings as it wants, by 4 to 10.
fn judge(
    records_out: &mut [u8],
    context_out: &mut [u8],
    g: Shape,
    context: &[u8],
    bindings: &[u8],
    work: Work,
) -> OrderAnswer
    requires { (checked_context context.now ≡ Ok work.k) × (checked_context bindings.now ≡ Ok (wanted work.order)) × Supported g }
    ensures { Judges g context.now bindings.now work result records_out.old records_out.new context_out.old context_out.new }
{
    let Work { k, order, .. } = work;
    let positions = g.spills + 11;
    if !checks::present(k, order) {
        return Err(OrderRefusal::Missing);
    }
    if !checks::kinds_ok(context, k, order) {
        return Err(OrderRefusal::Kind);
    }
    if !checks::count_ok(order) {
        return Err(OrderRefusal::Count);
    }
    if positions < checks::asked(context, k, order) {
        return Err(OrderRefusal::Position);
    }
    write_order(records_out, context_out, g, context, bindings, work)
}

// The number of the context's variables and the order, where its context, bindings and bytes pass 15 to 17 and 2; or the refusal.
fn begin(context: &[u8], order: &[u8], bindings: &[u8]) -> Result<(u64, Order), OrderRefusal>
    ensures { Begins context.now order.now bindings.now result }
{
    let k = context::check_context(context)?;
    let m = context::check_after(k, bindings)?;
    let Some(read) = records::order::read_start(order) else {
        return Err(OrderRefusal::Malformed(1));
    };
    if m != records::order::wanted(read) as usize {
        return Err(OrderRefusal::Malformed(1));
    }
    if order.len() != 24 {
        return Err(OrderRefusal::Malformed(2));
    }
    Ok((k as u64, read))
}

// An order in an edition that there is: 15 to 17 and 2, then 3 for the frame, then 4 to 10.
fn order_in(
    records_out: &mut [u8],
    context_out: &mut [u8],
    shaped: Result<Shape, Unshaped>,
    context: &[u8],
    counter: u64,
    order: &[u8],
    bindings: &[u8],
) -> OrderAnswer
    requires { ((g : Shape) → shaped ≡ Ok g → Supported g) × (shaped ≡ Err NoEdition → ⊥) }
    ensures { AnswersOrder shaped context.now (asking order.now bindings.now counter records_out.old context_out.old) result records_out.old records_out.new context_out.old context_out.new }
{
    let (k, order) = begin(context, order, bindings)?;
    match shaped {
        Ok(g) => {
            let work = Work { k, counter, order };
            judge(records_out, context_out, g, context, bindings, work)
        }
        Err(Unshaped::NoFrame) => Err(OrderRefusal::Frame),
        Err(Unshaped::NoEdition) => Err(OrderRefusal::Edition),
    }
}

// Whether there is such an edition.
fn is_edition(shaped: Result<Shape, Unshaped>) -> bool
    ensures { result ≡ in_shape shaped (λ g. true) true false }
{
    match shaped {
        Ok(_) | Err(Unshaped::NoFrame) => true,
        Err(Unshaped::NoEdition) => false,
    }
}

// An order's bytes with the edition, the frame, the context, the label counter and the bindings that follow it.
pub fn order(
    records_out: &mut [u8],
    context_out: &mut [u8],
    edition: u64,
    frame: u64,
    context: &[u8],
    counter: u64,
    order: &[u8],
    bindings: &[u8],
) -> OrderAnswer
    ensures { AnswersOrder (shape_of edition frame) context.now (asking order.now bindings.now counter records_out.old context_out.old) result records_out.old records_out.new context_out.old context_out.new }
{
    let shaped = layout::config::shape_of(edition, frame);
    if !is_edition(shaped) {
        return Err(OrderRefusal::Edition);
    }
    order_in(
        records_out,
        context_out,
        shaped,
        context,
        counter,
        order,
        bindings,
    )
}
