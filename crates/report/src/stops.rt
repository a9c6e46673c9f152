// The line of a run that did not end.
ghost use Rattle.std.specs.Prelude.{[], ◌∷◌, ◌+◌, ◌≤◌};
ghost use Rattle.text.specs.Putting.{farthest, Puts};
ghost use Rattle.report.specs.Stops.{stop_words, stop_line};

use crate::{answers, parts};
use machine::run::{RunAnswer, Stop};

fn put_fault(text: &mut [u8], at: usize, steps: u64, place: u64) -> usize
    requires { at + 80 ≤ farthest }
    ensures { Puts 80 text.old at text.new result (stop_words 11 (steps ∷ place ∷ [])) }
{
    let next = parts::put_count(text, at, b"machine fault 11 after ", steps);
    parts::put_count(text, next, b" steps at record ", place)
}

fn put_limit(text: &mut [u8], at: usize, limit: u64) -> usize
    requires { at + 46 ≤ farthest }
    ensures { Puts 46 text.old at text.new result (stop_words 12 (limit ∷ [])) }
{
    let next = parts::put_count(text, at, b"step limit 12 after ", limit);
    text::put_bytes(text, next, b" steps")
}

fn put_malformed(text: &mut [u8], at: usize, place: u64) -> usize
    requires { at + 92 ≤ farthest }
    ensures { Puts 92 text.old at text.new result (stop_words 2 (place ∷ [])) }
{
    let next = parts::put_count(text, at, b"run refused 2 at place ", place);
    text::put_bytes(
        text,
        next,
        b", malformed record, or at place 0 the heap's size",
    )
}

// The line of the order with a number, from 1, whose run did not end; nothing where it did.
#[tactic(auto, using(text::proofs::Putting::at_most), unfolding(crate::specs::Stops::stopped, crate::specs::Stops::stop_line))]
pub fn put_stop(text: &mut [u8], at: usize, number: u64, order: &[u8], ran: RunAnswer) -> usize
    requires { at + 147 ≤ farthest }
    ensures { Puts 147 text.old at text.new result (stop_line number order.now ran) }
{
    match ran {
        Ok(_) => at,
        Err(Stop::Malformed(place)) => {
            let said = answers::put_start(text, at, number, order);
            let end = put_malformed(text, said, place as u64);
            text::put_bytes(text, end, b", the channel stops here\n")
        }
        Err(Stop::Fault(steps, place)) => {
            let said = answers::put_start(text, at, number, order);
            let end = put_fault(text, said, steps, place as u64);
            text::put_bytes(text, end, b", the channel stops here\n")
        }
        Err(Stop::Limit(limit)) => {
            let said = answers::put_start(text, at, number, order);
            let end = put_limit(text, said, limit);
            text::put_bytes(text, end, b", the channel stops here\n")
        }
    }
}
