// A list of records, run to its end, a fault or a step limit.
ghost use Rattle.std.specs.Prelude.{◌≡◌, true, ◌≤◌, ◌<◌, length};
ghost use Rattle.machine_step.specs.View.{view, words_of};
ghost use Rattle.machine_step.specs.Memory.{heap_ok};
ghost use Rattle.machine.specs.Run as is;
ghost use Rattle.machine.specs.State.{see};
ghost use Rattle.machine.specs.declared.run.Stop.TheVariants.{Malformed as is_malformed};
ghost use Rattle.machine.specs.Loop.{ListedCodes, First, turn_of, Turns, EndsBy};

use crate::state::State;
use crate::step;
use machine_step::instruction::{NONE, Went};
use machine_step::memory;
use records::check::Malformed;
use records::code;

// Why a run stopped: the scope's 2 with the place; 11 with the steps before the fault and the record's place; 12 with the limit.
#[derive(Clone, Copy, Debug, PartialEq, Eq)]
pub enum Stop {
    Malformed(usize),
    Fault(u64, usize),
    Limit(u64),
}

impl From<Malformed> for Stop {
    ghost from_gives = { λ m r. r ≡ is_malformed m.place };

    fn from(flaw: Malformed) -> Stop {
        Stop::Malformed(flaw.place)
    }
}

// The steps of a run that ended, or why it stopped.
pub type RunAnswer = Result<u64, Stop>;

#[derive(Clone, Copy)]
pub struct Ran {
    pub state: State,
    pub answer: RunAnswer,
}

// What follows a record.
#[derive(Clone, Copy)]
pub enum Turn {
    To(usize),
    End,
    Fault,
}

// The first LAB with the label from record k on. By a loop: `find` over a closure took a third more time where the label is far.
fn first(s: &[u8], n: usize, k: usize, label: u32) -> Option<usize>
    requires { ListedCodes s.now n × (k ≤ n) }
    ensures { First label s.now n k result }
{
    for i in k..n {
        if code::is_label(s, 24 * i, label) {
            return Some(i);
        }
    }
    None
}

// The one LAB with the label.
fn find(s: &[u8], n: usize, label: u32) -> Option<usize>
    requires { ListedCodes s.now n }
    ensures { result ≡ is.find label (is.codes_of n s.now) }
{
    let k = first(s, n, 0, label)?;
    match first(s, n, k + 1, label) {
        Some(_) => None,
        None => Some(k),
    }
}

fn follow(s: &[u8], n: usize, place: usize, went: Went) -> Turn
    requires { ListedCodes s.now n × (place < n) }
    ensures { result ≡ turn_of (is.codes_of n s.now) place went }
{
    match went {
        Went::Next | Went::Called(_, _) => Turn::To(place + 1),
        Went::Jump(label) => match find(s, n, label) {
            Some(k) => Turn::To(k),
            None => Turn::Fault,
        },
        Went::End => Turn::End,
        Went::Fault => Turn::Fault,
    }
}

// What a record leaves, and what follows it.
#[derive(Clone, Copy)]
pub struct Turned {
    pub state: State,
    pub compared: Option<(u64, u64)>,
    pub turn: Turn,
}

// Record `place` of the n records of s, one step. The two refusals are never met: the records and the heap were checked.
fn take_step(
    block: usize,
    s: &[u8],
    n: usize,
    place: usize,
    state: State,
    heap: &mut [u64],
    compared: Option<(u64, u64)>,
    words: [u64; 9],
) -> Turned
    requires { ListedCodes s.now n × (place < n) × (heap_ok block (length heap.old) ≡ true) }
    ensures { Turns (words_of words) n s.now place (see state heap.old) compared (see result.state heap.new) result.compared result.turn }
{
    let Some(code) = code::read_code(s, place) else {
        return Turned {
            state,
            compared,
            turn: Turn::Fault,
        };
    };
    let t = step::step(block, code, state, heap, compared, words);
    match t.tried {
        Ok(went) => Turned {
            state: t.state,
            compared: t.compared,
            turn: follow(s, n, place, went),
        },
        Err(_) => Turned {
            state: t.state,
            compared: t.compared,
            turn: Turn::Fault,
        },
    }
}

// The n records of s, from the first. Each step takes the state and returns it.
fn turns(
    block: usize,
    s: &[u8],
    n: usize,
    state: State,
    heap: &mut [u64],
    words: [u64; 9],
    limit: u64,
) -> Ran
    requires { ListedCodes s.now n × (heap_ok block (length heap.old) ≡ true) }
    ensures { EndsBy (see result.state heap.new) result.answer (is.started (words_of words) (is.codes_of n s.now) limit (see state heap.old)) }
{
    let mut at = state;
    let mut compared = None;
    let mut place = 0;
    for done in 0..limit {
        if n <= place {
            return Ran {
                state: at,
                answer: Ok(done),
            };
        }
        let t = take_step(block, s, n, place, at, heap, compared, words);
        match t.turn {
            Turn::To(j) => {
                at = t.state;
                compared = t.compared;
                place = j;
            }
            Turn::End => return Ran {
                state: t.state,
                answer: Ok(done + 1),
            },
            Turn::Fault => return Ran {
                state: t.state,
                answer: Err(Stop::Fault(done, place + 1)),
            },
        }
    }
    if place < n {
        return Ran {
            state: at,
            answer: Err(Stop::Limit(limit)),
        };
    }
    Ran {
        state: at,
        answer: Ok(limit),
    }
}

// The same with the state lent, and the table of the codes' kinds copied once. Kept beside `turns`: the scope's run takes its state by value, which is too slow
// for a channel.
fn steps(
    s: &[u8],
    n: usize,
    registers: &mut [u64; 16],
    stack: &mut [u64],
    heap: &mut [u64],
    words: &[u64; 9],
    limit: u64,
) -> RunAnswer
    requires { ListedCodes s.now n × (length registers.old ≡ 16) }
    ensures { EndsBy (view registers.new stack.new heap.new) result (is.started (words_of words.now) (is.codes_of n s.now) limit (view registers.old stack.old heap.old)) }
{
    let kinds = step::KINDS;
    let mut pair = NONE;
    let mut place = 0;
    for done in 0..limit {
        if n <= place {
            return Ok(done);
        }
        let f = code::fields_at(s, 24 * place);
        let m = step::act(&kinds, f, registers, stack, heap, words, pair);
        match follow(s, n, place, m.went) {
            Turn::To(j) => {
                place = j;
                pair = m.pair;
            }
            Turn::End => return Ok(done + 1),
            Turn::Fault => return Err(Stop::Fault(done, place + 1)),
        }
    }
    if place < n {
        return Err(Stop::Limit(limit));
    }
    Ok(limit)
}

// The scope's run, where a block has so many words. Each step takes the state and returns it, `words` are what print calls leave, and the answer stands
// beside the last state.
pub fn run(
    block: usize,
    records: &[u8],
    state: State,
    heap: &mut [u64],
    words: [u64; 9],
    limit: u64,
) -> Ran
    ensures { is.Leaves result.answer (see result.state heap.new) (is.ran block (words_of words) records.now limit (see state heap.old)) }
{
    if !memory::heap_ok(block, heap.len()) {
        return Ran {
            state,
            answer: Err(Stop::Malformed(0)),
        };
    }
    match code::check_codes(records, 65536) {
        Ok(n) => turns(block, records, n, state, heap, words, limit),
        Err(flaw) => Ran {
            state,
            answer: Err(Stop::from(flaw)),
        },
    }
}

// The same run on a lent state, whose stack may have any number of words: no step copies it. The library for C and the channel go by it.
pub fn run_lent(
    block: usize,
    records: &[u8],
    registers: &mut [u64; 16],
    stack: &mut [u64],
    heap: &mut [u64],
    words: &[u64; 9],
    limit: u64,
) -> RunAnswer
    ensures { is.Leaves result (view registers.new stack.new heap.new) (is.ran block (words_of words.now) records.now limit (view registers.old stack.old heap.old)) }
{
    if !memory::heap_ok(block, heap.len()) {
        return Err(Stop::Malformed(0));
    }
    let n = code::check_codes(records, 65536)?;
    steps(records, n, registers, stack, heap, words, limit)
}
