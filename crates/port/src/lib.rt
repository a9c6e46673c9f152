// The library: what port_c exports to C and Rust. A function answers the scope's number, 0 where its input is accepted; a value goes out beside it.
#![tactic(auto)]

ghost use Rattle.std.specs.Prelude.{◌≡◌, [], ◌∷◌, length};
ghost use Rattle.records.specs.Bytes.{stored};
ghost use Rattle.listing.specs.Names.{code_names};
ghost use Rattle.listing.specs.Listing.{listed, listed_text};
ghost use Rattle.machine_step.specs.View.{view, words_of};
ghost use Rattle.port_numbers.specs.Numbers.{number_in, value_in};
ghost use Rattle.port_numbers.specs.List.{listed_numbers};
ghost use Rattle.layout.specs.Config.{Supported, edition_of, frame_on, shape_on, HEAP, FREE};
ghost use Rattle.port.specs.Blocks.{TellsBlocks};
ghost use Rattle.port.specs.Run.{start_state, StartsRun, unrun, Gives};

pub mod check; // bytes checked: a context, instruction records, an order
pub mod emission; // the operations of code.rs, memory.rs and into_routine.rs
pub mod query; // the queries of utils.rs and config.rs
pub mod orders; // the seven orders

use layout::config;
use layout::config::{Shape, Unshaped};
use machine_step::memory;
use records::code;

// The listing of at most 2,730 records: its bytes, the place of a bad record, or the bytes needed.
pub fn axcut_list(records: &[u8], text: &mut [u8], value: &mut u64) -> u64
    ensures number { result ≡ number_in (listed_numbers (listed code_names records.now (length text.old))) }
    ensures value { value.new ≡ value_in (listed_numbers (listed code_names records.now (length text.old))) }
    ensures written { text.new ≡ stored text.old 0 (listed_text code_names records.now) }
{
    let answer = listing::list_records(records, text);
    port_numbers::list::told(answer, value)
}

fn registers_of(g: Shape, fresh: bool) -> [u64; 16]
    requires { Supported g }
    ensures { result ≡ (start_state g fresh).registers }
{
    if fresh {
        machine::state::fresh_registers(g)
    } else {
        machine::state::entry_registers()
    }
}

// The state with which a routine is entered, or that a list of orders starts from, on a stack of the frame's words.
pub fn axcut_start(
    edition: u64,
    frame: u64,
    fresh: bool,
    registers: &mut [u64; 16],
    stack: &mut [u64],
) -> u64
    ensures { StartsRun (shape_on edition frame (length stack.old)) fresh result registers.old registers.new stack.old stack.new }
{
    match config::shape_on(edition, frame, stack.len()) {
        Ok(g) => {
            *registers = registers_of(g, fresh);
            stack.fill(0);
            0
        }
        Err(Unshaped::NoFrame) => 3,
        Err(Unshaped::NoEdition) => 23,
    }
}

// What a run without a frame is answered.
fn unrun(block: usize, records: &[u8], heap: usize, steps: &mut u64, place: &mut u64) -> u64
    ensures { result ∷ steps.new ∷ place.new ∷ [] ≡ unrun block records.now heap }
{
    *steps = 0;
    *place = 0;
    if !memory::heap_ok(block, heap) {
        return 2;
    }
    match code::check_codes(records, 65536) {
        Ok(_) => 3,
        Err(bad) => {
            *place = bad.place as u64;
            2
        }
    }
}

// The scope's run on a lent state, a heap of the edition's blocks and print words: the answer's number, with the steps and the record's place that go with it.
pub fn axcut_run(
    edition: u64,
    frame: u64,
    records: &[u8],
    registers: &mut [u64; 16],
    stack: &mut [u64],
    heap: &mut [u64],
    words: &[u64; 9],
    limit: u64,
    steps: &mut u64,
    place: &mut u64,
) -> u64
    ensures { Gives (edition_of edition) (frame_on frame (length stack.old)) (words_of words.now) records.now limit (view registers.old stack.old heap.old) (view registers.new stack.new heap.new) result steps.new place.new }
{
    let Some(g) = config::edition_of(edition) else {
        *steps = 0;
        *place = 0;
        return 23;
    };
    let block = config::block_words(g) as usize;
    if config::frame_on(frame, stack.len()).is_none() {
        return unrun(block, records, heap.len(), steps, place);
    }
    let answer = machine::run::run_lent(block, records, registers, stack, heap, words, limit);
    port_numbers::run::told(answer, steps, place)
}

// The blocks of a channel's heap between two runs, counted, and the most that were reachable at once.
pub fn axcut_blocks(edition: u64, registers: &[u64; 16], heap: &[u64], counts: &mut [u64; 5]) -> u64
    ensures { TellsBlocks (edition_of edition) (length heap.now) (words_of heap.now) (words_of registers.now HEAP) (words_of registers.now FREE) result counts.old counts.new }
{
    let Some(g) = config::edition_of(edition) else {
        return 23;
    };
    let blocks = heap_chains::count_blocks_in(g, registers, heap);
    let fit = heap_chains::to_fit_in(g, registers, heap);
    *counts = [
        blocks.linear,
        blocks.lazy,
        blocks.held,
        blocks.untouched,
        fit.peak,
    ];
    0
}
