// The lines that operators of a channel read, put into a text at an index as `text` does.
#![tactic(auto)]

pub mod parts; // words, then a number
pub mod answers; // the line of an order's answer
pub mod stops; // the line of a run that did not end

ghost use Rattle.std.specs.Prelude.{◌+◌, ◌≤◌};
ghost use Rattle.text.specs.Putting.{farthest, Puts};
ghost use Rattle.report.specs.Counts.{blocks_line, fit_lines};

// How many blocks are on the linear list, on the lazy list, held, and past the frontier.
pub fn put_blocks(
    text: &mut [u8],
    at: usize,
    linear: u64,
    lazy: u64,
    held: u64,
    untouched: u64,
) -> usize
    requires { at + 122 ≤ farthest }
    ensures { Puts 122 text.old at text.new result (blocks_line linear lazy held untouched) }
{
    let a = parts::put_count(text, at, b"blocks: linear ", linear);
    let b = parts::put_count(text, a, b", lazy ", lazy);
    let c = parts::put_count(text, b, b", held ", held);
    let d = parts::put_count(text, c, b", untouched ", untouched);
    text::put_byte(text, d, b'\n')
}

// How many orders were accepted and refused, the most blocks that were reachable at once, and the heap to fit for them.
pub fn put_fit(
    text: &mut [u8],
    at: usize,
    accepted: u64,
    refused: u64,
    peak: u64,
    blocks: u64,
    bytes: u64,
) -> usize
    requires { at + 166 ≤ farthest }
    ensures { Puts 166 text.old at text.new result (fit_lines accepted refused peak blocks bytes) }
{
    let a = parts::put_count(text, at, b"orders: accepted ", accepted);
    let b = parts::put_count(text, a, b", refused ", refused);
    let c = parts::put_count(text, b, b"\npeak: blocks ", peak);
    let d = parts::put_count(text, c, b"\nto fit: blocks ", blocks);
    let e = parts::put_count(text, d, b", bytes ", bytes);
    text::put_byte(text, e, b'\n')
}
