// What a print order writes.
ghost use Rattle.std.specs.Prelude.{◌≡◌, ◌+◌, ◌≤◌, ◌<◌, length};
ghost use Rattle.records.specs.Orders.{order_read};
ghost use Rattle.text.specs.Putting.{farthest, Puts};
ghost use Rattle.layout.specs.Config.{Supported, stack_depth};
ghost use Rattle.layout.specs.Positions.{location, entries};
ghost use Rattle.layout.specs.Frame.{held_in};
ghost use Rattle.machine_step.specs.View.{words_of, from_end};
ghost use Rattle.machine_step.specs.Forms.{Sized};
ghost use Rattle.report_state.specs.Prints.{printed_text, prints_of, prints, prints_on};

use crate::variables;
use layout::config::Shape;
use records::order::Order;

// The integer, and a newline if asked, as the print routines write them.
fn put_printed(text: &mut [u8], at: usize, newline: bool, integer: u64) -> usize
    requires { at + 22 ≤ farthest }
    ensures { Puts 22 text.old at text.new result (printed_text newline integer) }
{
    let next = text::put_signed(text, at, integer);
    if newline {
        return text::put_byte(text, next, b'\n');
    }
    next
}

// The word at position p, printed.
fn put_word(
    text: &mut [u8],
    at: usize,
    newline: bool,
    registers: &[u64],
    stack: &[u64],
    p: u64,
) -> usize
    requires { (length registers.now ≡ 16) × (p < length stack.now) × (p < entries) × (at + 22 ≤ farthest) }
    ensures { Puts 22 text.old at text.new result (printed_text newline (held_in (words_of registers.now) (from_end stack.now) (location p))) }
{
    let table = layout::utils::positions();
    let word = variables::word_at(registers, stack, &table, p);
    put_printed(text, at, newline, word)
}

fn put_whole(
    text: &mut [u8],
    at: usize,
    g: Shape,
    order: Order,
    registers: &[u64],
    stack: &[u64],
) -> usize
    requires { Sized (stack_depth g) registers.now stack.now × (at + 22 ≤ farthest) × Supported g }
    ensures { Puts 22 text.old at text.new result (prints_of g (words_of registers.now) (from_end stack.now) order) }
{
    let limit = g.spills + 11;
    let Order::Print(newline, a) = order else {
        return at;
    };
    let p = 2 * (a as u64) + 1;
    if p < limit {
        return put_word(text, at, newline, registers, stack, p);
    }
    at
}

// What an order writes, if it is a print order, on registers and a frame's stack; nothing on another number of words.
pub fn put_print(
    text: &mut [u8],
    at: usize,
    frame: u64,
    order: &[u8],
    registers: &[u64; 16],
    stack: &[u64],
) -> usize
    requires { at + 22 ≤ farthest }
    ensures { Puts 22 text.old at text.new result (prints_on frame order.now registers.now stack.now) }
{
    match layout::config::frame_on(frame, stack.len()) {
        Some(g) => put_print_in(text, at, g, order, registers, stack),
        None => at,
    }
}

fn put_print_in(
    text: &mut [u8],
    at: usize,
    g: Shape,
    order: &[u8],
    registers: &[u64],
    stack: &[u64],
) -> usize
    requires { Sized (stack_depth g) registers.now stack.now × (at + 22 ≤ farthest) × Supported g }
    ensures { Puts 22 text.old at text.new result (prints g (words_of registers.now) (from_end stack.now) (order_read order.now)) }
{
    match records::order::read_order(order) {
        Ok(whole) => put_whole(text, at, g, whole, registers, stack),
        Err(_) => at,
    }
}
