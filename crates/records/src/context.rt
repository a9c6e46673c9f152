// Contexts, and the bindings that follow an order: what is bad in them, and where.
ghost use Rattle.std.specs.Prelude.{◌≡◌, ◌&&◌, ◌+◌, ◌*◌, ◌≤◌, length, drop};
ghost use Rattle.records.specs.Answers.{AnswersBy};
ghost use Rattle.records.specs.Contexts.{marked, kind_ok, first_flaw, counted_on, checked_context, context_cause};

use crate::bytes;

// What is bad; places count from 1.
#[derive(Clone, Copy, Debug, PartialEq, Eq)]
pub enum Flaw {
    // 15: not whole bindings, or more than 4,096
    Length,
    // 16: the mark of the binding at this place
    Mark(usize),
    // 17: the kind or the zero byte of the binding at this place
    Kind(usize),
}

// Whether the binding at byte `at` has its mark.
fn marked(s: &[u8], at: usize) -> bool
    requires { at + 8 ≤ length s.now }
    ensures { result ≡ marked (drop at s.now) }
{
    s[at] == 0xA7 && s[at + 1] == 1
}

// The two bytes that mark a binding, as a number.
const MARK: u32 = 0x1A7;

// Whether the binding at byte `at` has its mark, one of the two kinds, and its zero byte.
fn sound(s: &[u8], at: usize) -> bool
    requires { at + 8 ≤ length s.now }
    ensures { result ≡ (marked (drop at s.now) && kind_ok (drop at s.now)) }
{
    let head = bytes::number4(s, at);
    if head % 65536 != MARK {
        return false;
    }
    head / 65536 <= 1
}

// The earliest bad one of n bindings that come after `before` others.
fn first_flaw(before: usize, s: &[u8], n: usize) -> Result<usize, Flaw>
    requires { (before ≤ 4096) × (8 * n ≤ length s.now) }
    ensures { result ≡ counted_on before (first_flaw 0 n s.now) }
{
    for k in 0..n {
        if !sound(s, 8 * k) {
            if marked(s, 8 * k) {
                return Err(Flaw::Kind(before + (k + 1)));
            }
            return Err(Flaw::Mark(before + (k + 1)));
        }
    }
    Ok(n)
}

// Bindings that come after `before` others: their length first, and their places count on.
pub fn check_after(before: usize, s: &[u8]) -> Result<usize, Flaw>
    requires { before ≤ 4096 }
    ensures { AnswersBy context_cause result (counted_on before (checked_context s.now)) }
{
    if s.len() % 8 != 0 {
        return Err(Flaw::Length);
    }
    if 32768 < s.len() {
        return Err(Flaw::Length);
    }
    first_flaw(before, s, s.len() / 8)
}

// A context, at most 4,096 bindings: how many there are, or what is bad.
pub fn check_context(s: &[u8]) -> Result<usize, Flaw>
    ensures { AnswersBy context_cause result (checked_context s.now) }
{
    check_after(0, s)
}
