// Orders in words, turned to order records and binding records.
#![tactic(auto)]

mod lines; // the records of a line and of a text
mod messages; // what is wrong with a line, in words

ghost use Rattle.std.specs.Prelude.{◌≡◌, ◌+◌, ◌≤◌, length};
ghost use Rattle.records.specs.Bytes.{stored};
ghost use Rattle.text.specs.Putting.{farthest, Puts};
ghost use Rattle.plan.specs.declared.NotPlanned.TheVariants.{Bad};
ghost use Rattle.plan.specs.Plan.{planned, planned_bytes};
ghost use Rattle.plan.specs.Messages.{message};
ghost use Rattle.plan.specs.Reading.{PlansAreRead};
ghost use Rattle.plan.specs.Worked.{WorkedLines};

use crate::lines::BadLine;
use plan_line::wrong::Wrong;

// No more bytes than this are a text.
pub const LONGEST: usize = 131072;

// Why no records are written.
#[derive(Clone, Copy, Debug, PartialEq, Eq)]
pub enum NotPlanned {
    Bad(usize, Wrong), // the number of the first bad line, and what is wrong with it
    Room(usize), // how many bytes are needed
    Long, // the text is longer than LONGEST
}

impl From<BadLine> for NotPlanned {
    ghost from_gives = { λ b r. r ≡ Bad b.line b.wrong };

    fn from(bad: BadLine) -> NotPlanned {
        NotPlanned::Bad(bad.line, bad.wrong)
    }
}

// The records of a text, at the start of `out`: how many bytes were written.
pub fn plan(text: &[u8], out: &mut [u8]) -> Result<usize, NotPlanned>
    ensures answer { result ≡ planned text.now (length out.old) }
    ensures written { out.new ≡ stored out.old 0 (planned_bytes text.now) }
{
    if LONGEST < text.len() {
        return Err(NotPlanned::Long);
    }
    let mut none = [0u8; 1];
    let size = lines::put_plan(&mut none, text)?;
    if out.len() < size {
        return Err(NotPlanned::Room(size));
    }
    let _ = lines::put_plan(out, text);
    Ok(size)
}

// The message of a bad line, and a newline, at index `at` of a text, as far as it fits. Answers the index past it.
pub fn put_wrong(text: &mut [u8], at: usize, line: usize, wrong: Wrong) -> usize
    requires { at + 59 ≤ farthest }
    ensures { Puts 59 text.old at text.new result (message line wrong) }
{
    messages::put_message(text, at, line, wrong)
}

// Every order that is written is read back as the order of its line, and the bindings after it are accepted.
pub fn plans_are_read()
    ensures { PlansAreRead }
{}

// Lines and their records, by the definitions that `plan` is held to.
pub fn worked_lines()
    ensures { WorkedLines }
{}
