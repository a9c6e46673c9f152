// What an operation answers.
ghost use Rattle.std.specs.Prelude.{◌≡◌, false, ◌+◌, ◌/◌, ◌<◌, ◌^◌};
ghost use Rattle.records.specs.Contexts.{checked_context};
ghost use Rattle.emit.specs.declared.answer.Refusal.TheVariants.{Context, Body};
ghost use Rattle.emit.specs.Answers.{unframed, ample, granted, accepted, written_with};

use crate::cursor::Cursor;
use records::check::Malformed;
use records::context::Flaw;
use records::name::LAST_LABEL;

// How many records an operation wrote, and the counter after them.
#[derive(Clone, Copy, Debug, PartialEq, Eq)]
pub struct Written {
    pub records: usize,
    pub counter: u64,
}

impl Written {
    // From a cursor at 0 to this one.
    pub fn up_to(q: Cursor) -> Self
        ensures { result ≡ written_with (q.at / 24) q.counter }
    {
        Self {
            records: q.at / 24,
            counter: q.counter,
        }
    }
}

// Why an operation wrote nothing, by the documents' causes.
#[derive(Clone, Copy, Debug, PartialEq, Eq)]
pub enum Refusal {
    // 15 to 17: what is bad in a context, with its place
    Context(Flaw),
    // 2: a record of the body, with its place
    Body(usize),
    // 3: an operand, a label or a frame
    Operand,
    // 4: an id or a place that is not there
    Missing,
    // 6: too many arguments
    Arguments,
    // 7: a share count
    Count,
    // 8: a position past the last
    Position,
    // 9: labels
    Labels,
    // 10: the output is too short, with the bytes needed
    Room(usize),
    // 23: no such edition, before all others
    Edition,
}

pub type Answer = Result<Written, Refusal>;

impl From<Flaw> for Refusal {
    ghost from_gives = { λ flaw r. r ≡ Context flaw };

    fn from(flaw: Flaw) -> Refusal {
        Refusal::Context(flaw)
    }
}

impl From<Malformed> for Refusal {
    ghost from_gives = { λ m r. r ≡ Body m.place };

    fn from(malformed: Malformed) -> Refusal {
        Refusal::Body(malformed.place)
    }
}

// The answer where there is no such frame, by the context that an operation reads.
pub fn unframed(context: &[u8]) -> Answer
    ensures { (result ≡ unframed (checked_context context.now)) × (accepted result ≡ false) }
{
    records::context::check_context(context)?;
    Err(Refusal::Operand)
}

// Whether so many labels and records are there to be had. An operation that takes no more is written in one pass, others are sized by a first one.
pub fn ample(counter: u64, room: usize, labels: u64, records: u64) -> bool
    requires { (labels < 2 ^ 32) × (records < 2 ^ 32) }
    ensures { result ≡ ample counter room labels records }
{
    counter.saturating_add(labels) <= LAST_LABEL && 24 * records <= room as u64
}

// The answer where nothing but labels or room can refuse: need is the cursor past the records, from a cursor at 0 and counter 0.
pub fn grant(counter: u64, room: usize, need: Cursor) -> Answer
    requires { need.counter < 2 ^ 32 }
    ensures { result ≡ granted counter room need.at need.counter }
{
    if LAST_LABEL < counter {
        return Err(Refusal::Labels);
    }
    let after = counter + need.counter;
    if LAST_LABEL < after {
        return Err(Refusal::Labels);
    }
    if room < need.at {
        return Err(Refusal::Room(need.at));
    }
    Ok(Written {
        records: need.at / 24,
        counter: after,
    })
}
