// A channel, and one order played on it.
ghost use Rattle.std.specs.Prelude.{◌≡◌, ℕ, ◌*◌, ◌≤◌, List, [], length, take, Ok, Err};
ghost use Rattle.layout.specs.declared.config.Shape.{Shape};
ghost use Rattle.layout.specs.declared.config.Unshaped.TheVariants.{NoFrame};
ghost use Rattle.layout.specs.Config.{Supported, shape_of, in_frame, stack_depth, block_words};
ghost use Rattle.machine_step.specs.View.{view, words_of};
ghost use Rattle.machine.specs.State.{fresh_registers};
ghost use Rattle.machine.specs.Run.{ran, Leaves};
ghost use Rattle.order.specs.Answers as orders;
ghost use Rattle.channel_step.specs.Playing as is;

use layout::config;
use layout::config::{Shape, Unshaped};
use machine::run::RunAnswer;
use order_spec::answer::{OrderAnswer, OrderRefusal};

// The bytes of a context with as many variables as the largest frame has positions for, and the words of that frame's stack.
pub const CONTEXT: usize = 2088;

pub const STACK: usize = 576;

// The bytes of the largest order's records, a store of 261 linked variables.
pub const RECORDS: usize = 202464;

// The context's bytes, of which the first `used` count, beside the machine's state: of the stack the frame's words count, its number of spills and 64. The heap
// is lent, of the edition's blocks.
#[derive(Clone, Copy)]
pub struct Channel {
    pub edition: u64,
    pub frame: u64,
    pub used: usize,
    pub context: [u8; CONTEXT],
    pub registers: [u64; 16],
    pub stack: [u64; STACK],
}

// The channel after an order, its answer, and how its run ended.
#[derive(Clone, Copy)]
pub struct Played {
    pub channel: Channel,
    pub answer: OrderAnswer,
    pub ran: RunAnswer,
}

impl Played {
    // An order that is refused: the channel stays, and no step is made.
    fn not_run(channel: Channel, answer: OrderAnswer) -> Self
        ensures { result ≡ record { channel = channel; answer = answer; ran = Ok 0 } }
    {
        Self {
            channel,
            answer,
            ran: Ok(0),
        }
    }
}

// How many words of a channel's stack are its frame's; none where there is no such frame.
pub fn stack_words(frame: u64) -> usize
    ensures { result ≡ in_frame frame stack_depth 0 }
{
    match config::frame_of(frame) {
        Some(g) => (g.spills + 64) as usize,
        None => 0,
    }
}

// Where there is no such edition or frame any will do: every order is refused there.
fn fresh_registers(edition: u64, frame: u64) -> [u64; 16]
    ensures { (g : Shape) → shape_of edition frame ≡ Ok g → result ≡ fresh_registers g }
{
    match config::shape_of(edition, frame) {
        Ok(g) => machine::state::fresh_registers(g),
        Err(_) => [0; 16],
    }
}

// With which a list of orders starts, on a zeroed heap.
pub fn fresh(edition: u64, frame: u64) -> Channel
    ensures { is.Starts edition frame result }
{
    Channel {
        edition,
        frame,
        used: 0,
        context: [0; CONTEXT],
        registers: fresh_registers(edition, frame),
        stack: [0; STACK],
    }
}

// The order function on the context's bytes in use.
fn ask(
    records_out: &mut [u8],
    context_out: &mut [u8],
    edition: u64,
    frame: u64,
    context: &[u8],
    used: usize,
    counter: u64,
    order: &[u8],
    bindings: &[u8],
) -> OrderAnswer
    ensures { orders.AnswersOrder (shape_of edition frame) (take used context.now) (orders.asking order.now bindings.now counter records_out.old context_out.old) result records_out.old records_out.new context_out.old context_out.new }
{
    let end = used.min(context.len());
    order::order::order(
        records_out,
        context_out,
        edition,
        frame,
        &context[..end],
        counter,
        order,
        bindings,
    )
}

// The first `count` records run, with their number as the step limit.
fn run_records(
    records: &[u8],
    count: usize,
    g: Shape,
    registers: &mut [u64; 16],
    stack: &mut [u64],
    heap: &mut [u64],
    words: &[u64; 9],
) -> RunAnswer
    requires { (24 * count ≤ length records.now) × Supported g }
    ensures { Leaves result (view registers.new stack.new heap.new) (ran (block_words g) (words_of words.now) (take (24 * count) records.now) count (view registers.old stack.old heap.old)) }
{
    let end = 24 * count;
    let block = config::block_words(g) as usize;
    machine::run::run_lent(
        block,
        &records[..end],
        registers,
        stack,
        heap,
        words,
        count as u64,
    )
}

// An order in the shape of the channel's edition and frame.
fn play_in(
    g: Shape,
    channel: Channel,
    heap: &mut [u64],
    records_out: &mut [u8],
    counter: u64,
    order: &[u8],
    bindings: &[u8],
    words: [u64; 9],
) -> Played
    requires { (is.shape_in channel ≡ Ok g) × Supported g }
    ensures { is.SameShape channel result.channel × is.Plays g (is.channel_of g channel heap.old) (is.asking_on g order.now bindings.now counter records_out.old) (words_of words) (is.channel_of g result.channel heap.new) result.answer result.ran records_out.old records_out.new }
{
    let room = (8 * ((g.spills + 11) / 2)) as usize;
    let depth = (g.spills + 64) as usize;
    let context = channel.context;
    let mut registers = channel.registers;
    let mut stack = channel.stack;
    let mut after = [0u8; CONTEXT];
    let answer = ask(
        records_out,
        &mut after[..room],
        channel.edition,
        channel.frame,
        &context,
        channel.used,
        counter,
        order,
        bindings,
    );
    let Ok(accepted) = answer else {
        return Played::not_run(channel, answer);
    };
    let ran = run_records(
        records_out,
        accepted.records,
        g,
        &mut registers,
        &mut stack[..depth],
        heap,
        &words,
    );
    Played {
        channel: Channel {
            used: 8 * accepted.bindings,
            context: after,
            registers,
            stack,
            ..channel
        },
        answer,
        ran,
    }
}

// An order where there is no such frame: it is answered, and nothing is played.
fn refuse(
    channel: Channel,
    records_out: &mut [u8],
    counter: u64,
    order: &[u8],
    bindings: &[u8],
) -> Played
    requires { is.shape_in channel ≡ Err NoFrame }
    ensures { (heap : List ℕ) → is.Stays channel (is.unframed_on channel (orders.asking order.now bindings.now counter records_out.old [])) result.channel heap heap result.answer result.ran records_out.old records_out.new }
{
    let context = channel.context;
    let mut none = [0u8; 1];
    let answer = ask(
        records_out,
        &mut none,
        channel.edition,
        channel.frame,
        &context,
        channel.used,
        counter,
        order,
        bindings,
    );
    Played::not_run(channel, answer)
}

// An order's bytes and the bindings that follow it, played on a channel: its records go into `records_out`, and run on the heap.
pub fn play(
    channel: Channel,
    heap: &mut [u64],
    records_out: &mut [u8],
    counter: u64,
    order: &[u8],
    bindings: &[u8],
    words: [u64; 9],
) -> Played
    ensures { is.PlaysIn channel order.now bindings.now counter (words_of words) result.channel heap.old heap.new result.answer result.ran records_out.old records_out.new }
{
    match config::shape_of(channel.edition, channel.frame) {
        Ok(g) => play_in(
            g,
            channel,
            heap,
            records_out,
            counter,
            order,
            bindings,
            words,
        ),
        Err(Unshaped::NoFrame) => refuse(channel, records_out, counter, order, bindings),
        Err(Unshaped::NoEdition) => Played::not_run(channel, Err(OrderRefusal::Edition)),
    }
}
