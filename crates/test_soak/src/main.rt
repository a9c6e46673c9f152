// Plays the lists of orders on standard input, a load followed by its bindings, each list in its edition and its frame, and checks after each accepted order what
// demand 3 says of the words: on a large heap, which gives the list's peak; on two blocks more than the peak, where all is sound; on one more, where the frontier
// is no block of the heap; and on no more, where a run meets a fault.
#![tactic(auto)]

ghost use Rattle.std.specs.Prelude.{◌≤◌, length};
ghost use Rattle.std.specs.Iterator.{at_most};

use channel_step::channel;
use channel_step::channel::{Channel, RECORDS};
use std::fmt;
use std::io::Read;
use test_inspect::edition::Edition;
use test_inspect::heap::{Heap, Mark};
use test_inspect::inspector::Inspector;
use test_inspect::order::{ORDER, Order};
use test_inspect::plain::{FIELDS, PlainMachine, VALUES, VARIABLES, Value};
use test_inspect::state::{BLOCKS, State};
use test_inspect::values::{Placed, Values};
use test_inspect::work::ROOM;

// The words of the most blocks that a heap has, in the second edition.
const WORDS: usize = 16 * BLOCKS;

// The most bytes of a list.
const LIST: usize = 65536;

// A list of orders, in its edition and its frame.
#[derive(Drop)]
struct List<'a> {
    edition: u64,
    frame: u64,
    bytes: &'a [u8],
}

impl<'a> List<'a> {
    // The next list, after its edition, its frame and its length in bytes; none where the input ends, or a list would be too long for the room.
    fn read<R: Read>(input: &mut R, room: &'a mut [u8]) -> Option<List<'a>> {
        let mut head = [0u8; 24];
        if program_files::read_full(input, &mut head) < head.len() {
            return None;
        }
        let edition = records::bytes::number8(&head, 0);
        let frame = records::bytes::number8(&head, 8);
        let size = records::bytes::number8(&head, 16) as usize;
        let bytes = room.get_mut(..size)?;
        let read = program_files::read_full(input, bytes);
        Some(List {
            edition,
            frame,
            bytes: program_files::start_of(bytes, read),
        })
    }

    fn orders(&self) -> Orders<'a> {
        Orders { bytes: self.bytes }
    }
}

// The orders at the start of some bytes, each with its bindings, as far as there are whole ones.
#[derive(Drop)]
struct Orders<'a> {
    bytes: &'a [u8],
}

impl<'a> Iterator for Orders<'a> {
    type Item = (&'a [u8; ORDER], &'a [u8]);

    ghost remaining = { λ s. at_most (length s.bytes.now) };

    fn next(&mut self) -> Option<(&'a [u8; ORDER], &'a [u8])> {
        let (order, rest) = self.bytes.split_first_chunk::<ORDER>()?;
        let (bindings, rest) = rest.split_at_checked(bindings_after(order))?;
        self.bytes = rest;
        Some((order, bindings))
    }
}

// How many bytes of bindings follow an order: those of a load's n.
fn bindings_after(order: &[u8; ORDER]) -> usize {
    match Order::from(*order) {
        Order::Load { count } => 8 * (count % 65536),
        _ => 0,
    }
}

// What came of an order.
#[derive(Clone, Copy, Debug, PartialEq, Eq)]
enum Outcome {
    Refused,
    Fault,
    Unsound,
    Sound,
}

// How many orders there were, and what came of them.
#[derive(Clone, Copy, Debug, PartialEq, Eq, Default)]
struct Counts {
    orders: u64,
    refused: u64,
    unsound: u64,
    faults: u64,
}

impl Counts {
    fn count(&mut self, outcome: Outcome) {
        self.orders = self.orders.saturating_add(1);
        match outcome {
            Outcome::Refused => self.refused = self.refused.saturating_add(1),
            Outcome::Fault => self.faults = self.faults.saturating_add(1),
            Outcome::Unsound => self.unsound = self.unsound.saturating_add(1),
            Outcome::Sound => {}
        }
    }
}

impl fmt::Display for Counts {
    fn fmt<W: fmt::Write>(&self, f: &mut fmt::Formatter<W>) -> fmt::Result {
        write!(
            f,
            "orders {}, accepted {}, refused {}, unsound {}, faults {}",
            self.orders,
            self.orders.saturating_sub(self.refused),
            self.refused,
            self.unsound,
            self.faults
        )
    }
}

// Counters are any: each 64th is the last that there is.
fn counter_of(orders: u64) -> u64 {
    if orders % 64 == 63 {
        2147483647
    } else {
        orders
    }
}

// So are output lengths: each 64th is too short for a record.
fn room_of(orders: u64) -> usize
    ensures { result ≤ 202464 }
{
    if orders % 64 == 31 { 23 } else { RECORDS }
}

// And print words: those look like addresses of blocks.
fn print_words(edition: Edition, orders: u64) -> [u64; 9] {
    let size = 8 * edition.block_words() as u64;
    [65536 + size * (orders % 1000); 9]
}

// A list that is played, from a fresh channel beside a zeroed heap: the channel, the inspector of its words, and what came of its orders.
#[derive(Drop)]
struct Player<'a> {
    channel: Channel,
    inspector: Inspector<'a>,
    counts: Counts,
}

impl Player<'_> {
    // An order with its bindings, played with what its number gives: whether it is accepted, whether its run ends within its records, and whether the words after
    // it are as demand 3 says, beside the plain machine.
    fn play(
        &mut self,
        heap: &mut [u64],
        records: &mut [u8; RECORDS],
        order: &[u8; ORDER],
        bindings: &[u8],
    ) -> Outcome {
        let orders = self.counts.orders;
        let room = room_of(orders);
        let played = channel::play(
            self.channel,
            heap,
            &mut records[..room],
            counter_of(orders),
            order,
            bindings,
            print_words(Edition::from(self.channel.edition), orders),
        );
        self.channel = played.channel;
        let outcome = match (played.answer, played.ran) {
            (Ok(accepted), Ok(steps)) if steps <= accepted.records as u64 => {
                self.inspector.perform(Order::from(*order));
                self.inspect(heap)
            }
            (Ok(_), _) => Outcome::Fault,
            (Err(_), _) => Outcome::Refused,
        };
        self.counts.count(outcome);
        outcome
    }

    // The context's bytes in use, and as many words of the stack as the frame has.
    fn inspect(&mut self, heap: &[u64]) -> Outcome {
        let depth = channel::stack_words(self.channel.frame);
        let (Some(context), Some(stack)) = (
            self.channel.context.get(..self.channel.used),
            self.channel.stack.get(..depth),
        ) else {
            return Outcome::Unsound;
        };
        let state = State {
            edition: Edition::from(self.channel.edition),
            context,
            registers: &self.channel.registers,
            stack,
            heap,
        };
        if self.inspector.is_sound(&state) {
            Outcome::Sound
        } else {
            Outcome::Unsound
        }
    }
}

// A list on a heap of so many blocks, BLOCKS at most, up to a fault: after that the words are those in the middle of an order. The result is the list's peak. Bytes
// for records and places for what the inspector has left to look at are lent, whatever is in them.
fn play_on<R: Print>(
    rt: &R,
    list: &List,
    blocks: u64,
    records: &mut [u8; RECORDS],
    pointers: &mut [u64; ROOM],
    objects: &mut [Placed; ROOM],
) -> u64 {
    let mut heap = [0u64; WORDS];
    let mut variables = [0u32; VARIABLES];
    let mut fields = [0u32; FIELDS];
    let mut values = [Value::NONE; VALUES];
    let mut marks = [Mark::NEW; BLOCKS];
    let most = blocks.min(BLOCKS as u64) as usize;
    let words = most * Edition::from(list.edition).block_words();
    let inspector = Inspector::new(
        PlainMachine::new(&mut variables, &mut fields, &mut values),
        Heap::new(&mut marks[..most], pointers),
        Values::new(objects),
    );
    let mut player = Player {
        channel: channel::fresh(list.edition, list.frame),
        inspector,
        counts: Counts::default(),
    };
    for (order, bindings) in list.orders() {
        if player.play(&mut heap[..words], records, order, bindings) == Outcome::Fault {
            break;
        }
    }
    let _ = println!(rt; "on {blocks} blocks: {}", player.counts);
    player.inspector.peak() as u64
}

fn play_list<R: Print>(
    rt: &R,
    list: &List,
    records: &mut [u8; RECORDS],
    pointers: &mut [u64; ROOM],
    objects: &mut [Placed; ROOM],
) {
    let _ = println!(rt; "edition {}, frame {}", list.edition, list.frame);
    let peak = play_on(rt, list, BLOCKS as u64, records, pointers, objects);
    let _ = println!(rt; "peak {peak}");
    for more in [2, 1, 0] {
        play_on(
            rt,
            list,
            peak.saturating_add(more),
            records,
            pointers,
            objects,
        );
    }
}

fn main(rt: HostRuntime) {
    let mut input = rt.stdin();
    let mut room = [0u8; LIST];
    let mut records = [0u8; RECORDS];
    let mut pointers = [0u64; ROOM];
    let mut objects = [Placed::NOWHERE; ROOM];
    for _ in 0..u64::MAX {
        let Some(list) = List::read(&mut input, &mut room) else {
            return;
        };
        play_list(&rt, &list, &mut records, &mut pointers, &mut objects);
    }
}
