// The lent heap's two free lists, followed by the first words of their blocks: the blocks counted, and how many to fit.
#![tactic(auto)]

ghost use Rattle.std.specs.Prelude.{◌≡◌, ◌/◌, length};
ghost use Rattle.records.specs.Answers.{AnswersBy};
ghost use Rattle.layout.specs.Config.{Supported, block_words, HEAP, FREE};
ghost use Rattle.machine_step.specs.View.{words_of};
ghost use Rattle.heap.specs.Words.{block_number, headers};
ghost use Rattle.heap_chains.specs.Blocks.{list_length, chain_length, chain_end, blocks_counted, fit_in, counted_by, counted_cause, fitted_by, fitted_cause};

use layout::config;
use layout::config::Shape;

// Blocks on HEAP's list, on FREE's chain, held, and never used.
#[derive(Clone, Copy)]
pub struct Blocks {
    pub linear: u64,
    pub lazy: u64,
    pub held: u64,
    pub untouched: u64,
}

// The most blocks that were reachable at once, and the heap to fit for it.
#[derive(Clone, Copy)]
pub struct Fit {
    pub peak: u64,
    pub blocks: u64,
    pub bytes: u64,
}

// A chain's blocks, and the block that ends it.
#[derive(Clone, Copy)]
struct Walked {
    length: u64,
    end: u64,
}

// The number of the block at an address.
fn number_of(g: Shape, b: u64) -> u64
    requires { Supported g }
    ensures { result ≡ block_number g.fields b }
{
    let block = config::block_words(g);
    if b < 65536 {
        0
    } else {
        (b - 65536) / 8 / block
    }
}

// The first word of the block at an address, 0 where none begins.
fn first_word(g: Shape, heap: &[u64], b: u64) -> u64
    requires { Supported g }
    ensures { result ≡ headers g.fields (words_of heap.now) b }
{
    let block = config::block_words(g);
    let at = block * number_of(g, b);
    if 65536 + 8 * at != b {
        return 0;
    }
    heap.get(at as usize).copied().unwrap_or(0)
}

// The blocks of a list that ends in 0, at most `most`.
fn walk_list(g: Shape, heap: &[u64], most: u64, first: u64) -> u64
    requires { Supported g }
    ensures { result ≡ list_length (headers g.fields (words_of heap.now)) most first }
{
    let mut b = first;
    for passed in 0..most {
        if b == 0 {
            return passed;
        }
        b = first_word(g, heap, b);
    }
    most
}

// The blocks of a chain before the first whose first word is 0, at most `most`.
fn walk_chain(g: Shape, heap: &[u64], most: u64, first: u64) -> Walked
    requires { Supported g }
    ensures { (result.length ≡ chain_length (headers g.fields (words_of heap.now)) most first) × (result.end ≡ chain_end (headers g.fields (words_of heap.now)) most first) }
{
    let mut b = first;
    for passed in 0..most {
        let next = first_word(g, heap, b);
        if next == 0 {
            return Walked {
                length: passed,
                end: b,
            };
        }
        b = next;
    }
    Walked {
        length: most,
        end: b,
    }
}

// The blocks of an edition's heap, where there is such an edition: 23 is told where not.
pub fn count_blocks(edition: u64, registers: &[u64; 16], heap: &[u64]) -> Option<Blocks>
    ensures { AnswersBy counted_cause result (counted_by edition (length heap.now) (words_of heap.now) (words_of registers.now HEAP) (words_of registers.now FREE)) }
{
    Some(count_blocks_in(config::edition_of(edition)?, registers, heap))
}

pub fn count_blocks_in(g: Shape, registers: &[u64; 16], heap: &[u64]) -> Blocks
    requires { Supported g }
    ensures { result ≡ blocks_counted g.fields (length heap.now / block_words g) (words_of heap.now) (words_of registers.now HEAP) (words_of registers.now FREE) }
{
    let all = (heap.len() as u64) / config::block_words(g);
    let linear = walk_list(g, heap, all, registers[2]);
    let lazy = walk_chain(g, heap, all, registers[3]);
    let frontier = number_of(g, lazy.end);
    let used = frontier.saturating_sub(linear);
    Blocks {
        linear,
        lazy: lazy.length,
        held: used.saturating_sub(lazy.length),
        untouched: all.saturating_sub(frontier),
    }
}

// What to fit for the orders so far, by where the frontier is; 23 again where there is no such edition.
pub fn to_fit(edition: u64, registers: &[u64; 16], heap: &[u64]) -> Option<Fit>
    ensures { AnswersBy fitted_cause result (fitted_by edition (length heap.now) (words_of heap.now) (words_of registers.now FREE)) }
{
    Some(to_fit_in(config::edition_of(edition)?, registers, heap))
}

pub fn to_fit_in(g: Shape, registers: &[u64; 16], heap: &[u64]) -> Fit
    requires { Supported g }
    ensures { result ≡ fit_in g.fields (length heap.now / block_words g) (words_of heap.now) (words_of registers.now FREE) }
{
    let block = config::block_words(g);
    let all = (heap.len() as u64) / block;
    let lazy = walk_chain(g, heap, all, registers[3]);
    let frontier = number_of(g, lazy.end);
    let peak = frontier.saturating_sub(1);
    let blocks = peak + 2;
    Fit {
        peak,
        blocks,
        bytes: 8 * block * blocks,
    }
}
