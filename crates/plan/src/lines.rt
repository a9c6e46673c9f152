// The records of a line and of a text, put into an output. Each function stores what fits and answers the index past all of it.
ghost use Rattle.std.specs.Prelude.{◌≡◌, ◌+◌, ◌*◌, ◌≤◌, ◌<◌, length, take, drop};
ghost use Rattle.records.specs.Contexts.{binding_bytes};
ghost use Rattle.records.specs.Orders.{order_fields_of, order_bytes};
ghost use Rattle.text.specs.Putting.{farthest, Puts};
ghost use Rattle.plan_line.specs.Words.{words_in, uncommented};
ghost use Rattle.plan.specs.Plan.{kind_of_word, bindings, following, plan_records, longest_plan};
ghost use Rattle.plan.specs.Steps.{most_line, Stepped, LaidOut};

use plan_line::words::Sought;
use plan_line::wrong::Wrong;
use plan_line::{orders, words};
use records::binding::{Binding, Kind};
use records::order::Order;
use records::{binding, order};

// The number of a text's first bad line, and what is wrong with it.
#[derive(Clone, Copy, Debug, PartialEq, Eq)]
pub struct BadLine {
    pub line: usize,
    pub wrong: Wrong,
}

#[tactic(auto, using(crate::proofs::KindNames::is_ext, crate::proofs::KindNames::is_linked))]
fn kind_of(w: &[u8]) -> Kind
    ensures { result ≡ kind_of_word w.now }
{
    match w {
        b"e" => Kind::Ext,
        _ => Kind::Linked,
    }
}

fn put_binding(out: &mut [u8], at: usize, kind: Kind, id: u32) -> usize
    requires { at + 8 ≤ farthest }
    ensures { Puts 8 out.old at out.new result (binding_bytes (record { kind = kind; id = id })) }
{
    let mut bytes = [0u8; 8];
    binding::write_binding(&mut bytes, 0, Binding { kind, id });
    text::put_bytes(out, at, &bytes)
}

fn put_order(out: &mut [u8], at: usize, o: Order) -> usize
    requires { at + 24 ≤ farthest }
    ensures { Puts 24 out.old at out.new result (order_bytes (order_fields_of o)) }
{
    let mut bytes = [0u8; 24];
    order::write_order(&mut bytes, 0, o);
    text::put_bytes(out, at, &bytes)
}

// The bindings of the first n kinds from index `from` on.
fn put_kinds(out: &mut [u8], at: usize, line: &[u8], from: usize, n: u32) -> usize
    requires { (from ≤ length line.now) × (at + 8 * n ≤ farthest) }
    ensures { Puts (8 * n) out.old at out.new result (bindings 0 (take n (words_in (drop from line.now)))) }
{
    let mut next = at;
    let mut i = from;
    for id in 0..n {
        let Some((start, end)) = words::next_word(line, i) else {
            return next;
        };
        next = put_binding(out, next, kind_of(&line[start..end]), id);
        i = end;
    }
    next
}

// The bindings that follow an order.
fn put_following(out: &mut [u8], at: usize, line: &[u8], o: Order) -> usize
    requires { at + 0x8_0000_0000 ≤ farthest }
    ensures { Puts 0x8_0000_0000 out.old at out.new result (following o (words_in line.now)) }
{
    let Order::Load(n) = o else {
        return at;
    };
    let Some((_, end)) = words::word_at(line, 0) else {
        return at;
    };
    put_kinds(out, at, line, end, n)
}

fn put_records(out: &mut [u8], at: usize, line: &[u8], o: Order) -> usize
    requires { at + most_line ≤ farthest }
    ensures { Puts most_line out.old at out.new result (plan_records o (words_in line.now)) }
{
    let next = put_order(out, at, o);
    put_following(out, next, line, o)
}

// The records of a line without a comment.
fn put_words(out: &mut [u8], at: usize, line: &[u8]) -> Result<usize, Wrong>
    requires { at + most_line ≤ farthest }
    ensures { Stepped out.old at out.new (words_in line.now) result }
{
    let Some(o) = orders::read_line(line)? else {
        return Ok(at);
    };
    Ok(put_records(out, at, line, o))
}

fn put_line(out: &mut [u8], at: usize, line: &[u8]) -> Result<usize, Wrong>
    requires { at + most_line ≤ farthest }
    ensures { Stepped out.old at out.new (words_in (uncommented line.now)) result }
{
    let end = words::find(line, 0, Sought::Byte(b'#'));
    put_words(out, at, &line[..end])
}

// The index past the LF at `end`, where one stands there.
fn past(text: &[u8], end: usize) -> usize
    ensures { (end < length text.now → result ≡ end + 1) × (length text.now ≤ end → result ≡ end) }
{
    if end < text.len() { end + 1 } else { end }
}

// The records of a text, from the start of `out`.
pub fn put_plan(out: &mut [u8], text: &[u8]) -> Result<usize, BadLine>
    requires { length text.now ≤ longest_plan }
    ensures { LaidOut text.now out.old out.new result }
{
    let mut next = 0;
    let mut at = 0;
    let mut line = 0;
    while at < text.len() {
        let end = words::find(text, at, Sought::Byte(b'\n'));
        line += 1;
        next = put_line(out, next, &text[at..end]).map_err(|wrong| BadLine { line, wrong })?;
        at = past(text, end);
    }
    Ok(next)
}
