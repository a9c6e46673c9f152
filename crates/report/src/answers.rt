// The line of an order's answer.
ghost use Rattle.std.specs.Prelude.{◌++◌, ℕ, ◌+◌, ◌-◌, ◌≤◌, length, Err};
ghost use Rattle.records.specs.Orders.{order_read};
ghost use Rattle.records.specs.Contexts.{flaw_cause};
ghost use Rattle.text.specs.Text.{ascii, decimal};
ghost use Rattle.text.specs.Putting.{farthest, Puts};
ghost use Rattle.layout.specs.Config.{Supported, positions};
ghost use Rattle.order_spec.specs.Answered.{order_answer_cause};
ghost use Rattle.report.specs.Parts.{counted};
ghost use Rattle.report.specs.Answers.{order_name, read_name, start, refusal, acceptance, outcome, order_line};

use crate::parts;
use layout::config::Shape;
use order_spec::answer::{OrderAnswer, OrderRefusal};
use records::context::Flaw;
use records::order::Order;

#[tactic(auto, using(text::proofs::Putting::at_most), unfolding(crate::specs::Answers::order_name))]
fn put_name(text: &mut [u8], at: usize, order: Order) -> usize
    requires { at + 7 ≤ farthest }
    ensures { Puts 7 text.old at text.new result (order_name order) }
{
    match order {
        Order::Put(_) => text::put_bytes(text, at, b"put"),
        Order::Compute(_, _, _) => text::put_bytes(text, at, b"compute"),
        Order::Copy(_, _) => text::put_bytes(text, at, b"copy"),
        Order::Drop => text::put_bytes(text, at, b"drop"),
        Order::Store(_, _) => text::put_bytes(text, at, b"store"),
        Order::Load(_) => text::put_bytes(text, at, b"load"),
        Order::Print(_, _) => text::put_bytes(text, at, b"print"),
    }
}

fn put_read_name(text: &mut [u8], at: usize, order: &[u8]) -> usize
    requires { at + 7 ≤ farthest }
    ensures { Puts 7 text.old at text.new result (read_name (order_read order.now)) }
{
    match records::order::read_order(order) {
        Ok(whole) => put_name(text, at, whole),
        Err(_) => text::put_bytes(text, at, b"order"),
    }
}

// The order's number in the list, from 1, and its name.
pub fn put_start(text: &mut [u8], at: usize, number: u64, order: &[u8]) -> usize
    requires { at + 30 ≤ farthest }
    ensures { Puts 30 text.old at text.new result (start number order.now) }
{
    let space = text::put_decimal(text, at, number);
    let name = text::put_byte(text, space, b' ');
    let colon = put_read_name(text, name, order);
    text::put_bytes(text, colon, b": ")
}

fn put_acceptance(text: &mut [u8], at: usize, records: u64, labels: u64) -> usize
    requires { at + 67 ≤ farthest }
    ensures { Puts 67 text.old at text.new result (acceptance records labels) }
{
    let next = parts::put_count(text, at, b"accepted, records ", records);
    parts::put_count(text, next, b", labels ", labels)
}

// A number that has no value, and what to look at.
fn put_refused(text: &mut [u8], at: usize, number: u64, words: &[u8]) -> usize
    requires { (length words.now ≤ 62) × (at + 90 ≤ farthest) }
    ensures { Puts 90 text.old at text.new result (counted "refused " number ++ words.now) }
{
    let next = parts::put_count(text, at, b"refused ", number);
    text::put_bytes(text, next, words)
}

// A binding's number in words, its place, and what to look at.
fn put_binding(text: &mut [u8], at: usize, number: &[u8], place: u64, words: &[u8]) -> usize
    requires { (length number.now ≤ 20) × (length words.now ≤ 56) × (at + 96 ≤ farthest) }
    ensures { Puts 96 text.old at text.new result ((number.now ++ decimal place) ++ words.now) }
{
    let next = parts::put_count(text, at, number, place);
    text::put_bytes(text, next, words)
}

fn put_flaw(text: &mut [u8], at: usize, flaw: Flaw) -> usize
    requires { at + 96 ≤ farthest }
    ensures { (frame : ℕ) → Puts 96 text.old at text.new result (refusal frame (flaw_cause flaw)) }
{
    match flaw {
        Flaw::Length => text::put_bytes(
            text,
            at,
            b"refused 15, bindings that are not whole, or more than 4096",
        ),
        Flaw::Mark(place) => put_binding(
            text,
            at,
            b"refused 16, binding ",
            place as u64,
            b": its mark is not A7 01",
        ),
        Flaw::Kind(place) => put_binding(
            text,
            at,
            b"refused 17, binding ",
            place as u64,
            b": its kind is neither 0 nor 1, or its zero byte is not 0",
        ),
    }
}

fn put_malformed(text: &mut [u8], at: usize, place: u64) -> usize
    requires { at + 87 ≤ farthest }
    ensures { (frame : ℕ) → Puts 87 text.old at text.new result (refusal frame (order_answer_cause (Err (OrderRefusal.Malformed place)))) }
{
    let next = parts::put_count(text, at, b"refused 2 at place ", place);
    text::put_bytes(
        text,
        next,
        b", malformed order, or not its number of bindings",
    )
}

fn put_short(text: &mut [u8], at: usize, bytes: u64) -> usize
    requires { at + 69 ≤ farthest }
    ensures { (frame : ℕ) → Puts 69 text.old at text.new result (refusal frame (order_answer_cause (Err (OrderRefusal.Room bytes)))) }
{
    let needed = parts::put_count(text, at, b"refused 10, ", bytes);
    let next = text::put_bytes(text, needed, b" bytes needed");
    text::put_bytes(text, next, b", an output is too short")
}

fn put_last(text: &mut [u8], at: usize, g: Shape) -> usize
    requires { (at + 46 ≤ farthest) × Supported g }
    ensures { Puts 46 text.old at text.new result (counted ", a position above " (positions g - 1) ++ ascii " needed") }
{
    let last = g.spills + 10;
    let next = parts::put_count(text, at, b", a position above ", last);
    text::put_bytes(text, next, b" needed")
}

// The frame's last position is named.
fn put_position(text: &mut [u8], at: usize, frame: u64) -> usize
    requires { at + 75 ≤ farthest }
    ensures { Puts 75 text.old at text.new result (refusal frame (order_answer_cause (Err OrderRefusal.Position))) }
{
    let next = text::put_bytes(text, at, b"refused 8, too many variables");
    match layout::config::frame_of(frame) {
        Some(g) => put_last(text, next, g),
        None => next,
    }
}

// What was answered; `before` is the label counter that went in.
#[tactic(auto, using(text::proofs::Putting::at_most), unfolding(text::specs::Text::digits, crate::specs::Answers::cause_words, crate::specs::Answers::separator, crate::specs::Answers::refusal, crate::specs::Answers::outcome))]
fn put_outcome(text: &mut [u8], at: usize, frame: u64, before: u64, answer: OrderAnswer) -> usize
    requires { at + 96 ≤ farthest }
    ensures { Puts 96 text.old at text.new result (outcome frame before answer) }
{
    match answer {
        Ok(accepted) => {
            let labels = accepted.counter.saturating_sub(before);
            put_acceptance(text, at, accepted.records as u64, labels)
        }
        Err(OrderRefusal::Context(flaw)) => put_flaw(text, at, flaw),
        Err(OrderRefusal::Malformed(place)) => put_malformed(text, at, place as u64),
        Err(OrderRefusal::Frame) => put_refused(text, at, 3, b", a frame has 256 or 512 spills"),
        Err(OrderRefusal::Missing) => put_refused(
            text,
            at,
            4,
            b", a place that is not in the context, or too few variables",
        ),
        Err(OrderRefusal::Kind) => put_refused(
            text,
            at,
            5,
            b", a variable of the wrong kind for the order",
        ),
        Err(OrderRefusal::Count) => put_refused(text, at, 7, b", a copy's count above 2147483647"),
        Err(OrderRefusal::Position) => put_position(text, at, frame),
        Err(OrderRefusal::Labels) => put_refused(
            text,
            at,
            9,
            b", labels above 2147483647 needed, let the counter start afresh",
        ),
        Err(OrderRefusal::Room(bytes)) => put_short(text, at, bytes as u64),
        Err(OrderRefusal::Edition) => put_refused(text, at, 23, b", an edition is 1 or 2"),
    }
}

// The line of the order with a number, from 1, that was answered in a frame with the label counter `before`.
pub fn put_order(
    text: &mut [u8],
    at: usize,
    frame: u64,
    number: u64,
    order: &[u8],
    before: u64,
    answer: OrderAnswer,
) -> usize
    requires { at + 127 ≤ farthest }
    ensures { Puts 127 text.old at text.new result (order_line frame number order.now before answer) }
{
    let said = put_start(text, at, number, order);
    let end = put_outcome(text, said, frame, before, answer);
    text::put_byte(text, end, b'\n')
}
