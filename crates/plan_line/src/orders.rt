// The order of a line's words.
ghost use Rattle.std.specs.Prelude.{MatchResult, ◌≡◌, ◌≤◌, length, drop, Some};
ghost use Rattle.plan_line.specs.Words.{words_in};
ghost use Rattle.plan_line.specs.Finding.{StartWith, NoneLeft};
ghost use Rattle.plan_line.specs.Orders.{name_of, named_first, place_at, integer_at, operator_of, operator_at, is_kind, ended, put_line, compute_line, copy_line, store_line, load_of, load_line, print_line, line_for, line_of};

use crate::wrong::Wrong;
use crate::{numbers, words};
use records::order::{Calculation, Order};

// What a line asks for, if anything.
pub type Line = Result<Option<Order>, Wrong>;

// Whether a word is the one that is expected. Kept as one enum: three arms of one match.
#[derive(Clone, Copy)]
pub enum Named {
    Yes,
    Other,
    Missing,
}

#[derive(Clone, Copy)]
pub enum Name {
    PutName,
    ComputeName,
    CopyName,
    DropName,
    StoreName,
    LoadName,
    PrintName,
}

#[tactic(auto, using(crate::proofs::Names::no_name, crate::proofs::Names::is_put, crate::proofs::Names::is_compute, crate::proofs::Names::is_copy, crate::proofs::Names::is_drop, crate::proofs::Names::is_store, crate::proofs::Names::is_load, crate::proofs::Names::is_print))]
fn name_of(w: &[u8]) -> Option<Name>
    ensures { result ≡ name_of w.now }
{
    match w {
        b"put" => Some(Name::PutName),
        b"compute" => Some(Name::ComputeName),
        b"copy" => Some(Name::CopyName),
        b"drop" => Some(Name::DropName),
        b"store" => Some(Name::StoreName),
        b"load" => Some(Name::LoadName),
        b"print" => Some(Name::PrintName),
        _ => None,
    }
}

#[tactic(auto, using(crate::proofs::Names::no_operation, crate::proofs::Names::is_add, crate::proofs::Names::is_sub, crate::proofs::Names::is_mul, crate::proofs::Names::is_div, crate::proofs::Names::is_rem))]
fn operator_of(w: &[u8]) -> Result<Calculation, Wrong>
    ensures { result ≡ operator_of w.now }
{
    match w {
        b"add" => Ok(Calculation::Add),
        b"sub" => Ok(Calculation::Sub),
        b"mul" => Ok(Calculation::Mul),
        b"div" => Ok(Calculation::Div),
        b"rem" => Ok(Calculation::Rem),
        _ => Err(Wrong::NoSuchOperation),
    }
}

#[tactic(auto, using(crate::proofs::Names::no_kind, crate::proofs::Names::is_e, crate::proofs::Names::is_l))]
fn is_kind(w: &[u8]) -> bool
    ensures { result ≡ is_kind w.now }
{
    matches!(w, b"e" | b"l")
}

// Word k, which is to be there.
fn word(line: &[u8], k: usize) -> Result<&[u8], Wrong>
    ensures { MatchResult result (λ w. StartWith w.now (drop k (words_in line.now))) (λ wrong. NoneLeft wrong (drop k (words_in line.now))) }
{
    let Some((start, end)) = words::word_at(line, k) else {
        return Err(Wrong::MissingWord);
    };
    Ok(&line[start..end])
}

// Whether word k is `name`.
fn word_named(line: &[u8], k: usize, name: &[u8]) -> Named
    ensures { result ≡ named_first name.now (drop k (words_in line.now)) }
{
    match word(line, k) {
        Ok(w) => { if w == name { Named::Yes } else { Named::Other } }
        Err(_) => Named::Missing,
    }
}

// Word k as a place or a count.
fn place_at(line: &[u8], k: usize) -> Result<u32, Wrong>
    ensures { result ≡ place_at (drop k (words_in line.now)) }
{
    let place = numbers::natural(word(line, k)?, 0xFFFFFFFF)?;
    Ok(place as u32)
}

// Word k as a value or a tag.
fn integer_at(line: &[u8], k: usize) -> Result<u64, Wrong>
    ensures { result ≡ integer_at (drop k (words_in line.now)) }
{
    numbers::integer(word(line, k)?)
}

fn operator_at(line: &[u8], k: usize) -> Result<Calculation, Wrong>
    ensures { result ≡ operator_at (drop k (words_in line.now)) }
{
    operator_of(word(line, k)?)
}

// The order, where no word k follows.
fn ended_at(line: &[u8], k: usize, o: Order) -> Line
    ensures { result ≡ ended o (drop k (words_in line.now)) }
{
    match words::word_at(line, k) {
        Some(_) => Err(Wrong::SurplusWord),
        None => Ok(Some(o)),
    }
}

#[tactic(auto, unfolding(crate::specs::Orders::put_line))]
fn read_put(line: &[u8]) -> Line
    ensures { result ≡ put_line (words_in line.now) }
{
    let value = integer_at(line, 1)?;
    ended_at(line, 2, Order::Put(value))
}

#[tactic(auto, unfolding(crate::specs::Orders::compute_line, crate::specs::Orders::operands_line, crate::specs::Orders::second_line))]
fn read_compute(line: &[u8]) -> Line
    ensures { result ≡ compute_line (words_in line.now) }
{
    let operation = operator_at(line, 1)?;
    let a = place_at(line, 2)?;
    let b = place_at(line, 3)?;
    ended_at(line, 4, Order::Compute(operation, a, b))
}

#[tactic(auto, unfolding(crate::specs::Orders::copy_line, crate::specs::Orders::times_line))]
fn read_copy(line: &[u8]) -> Line
    ensures { result ≡ copy_line (words_in line.now) }
{
    let a = place_at(line, 1)?;
    let n = place_at(line, 2)?;
    ended_at(line, 3, Order::Copy(a, n))
}

#[tactic(auto, unfolding(crate::specs::Orders::store_line, crate::specs::Orders::tagged_line, crate::specs::Orders::tag_line))]
fn read_store(line: &[u8]) -> Line
    ensures { result ≡ store_line (words_in line.now) }
{
    let n = place_at(line, 1)?;
    match word_named(line, 2, b"tag") {
        Named::Yes => {
            let tag = integer_at(line, 3)?;
            ended_at(line, 4, Order::Store(n, tag))
        }
        Named::Other => Err(Wrong::NotTag),
        Named::Missing => Err(Wrong::MissingWord),
    }
}

// The order, where no word follows index `at`.
fn load_of(line: &[u8], at: usize, n: u32) -> Line
    requires { at ≤ length line.now }
    ensures { result ≡ load_of n (words_in (drop at line.now)) }
{
    match words::next_word(line, at) {
        Some(_) => Err(Wrong::TooManyKinds),
        None => Ok(Some(Order::Load(n))),
    }
}

// A load of the kinds from index `from` on.
fn read_load(line: &[u8], from: usize) -> Line
    requires { from ≤ length line.now }
    ensures { result ≡ load_line 0 (words_in (drop from line.now)) }
{
    let mut at = from;
    for n in 0..4096u32 {
        let Some((start, end)) = words::next_word(line, at) else {
            return Ok(Some(Order::Load(n)));
        };
        if !is_kind(&line[start..end]) {
            return Err(Wrong::NotKind);
        }
        at = end;
    }
    load_of(line, at, 4096)
}

#[tactic(auto, unfolding(crate::specs::Orders::print_line, crate::specs::Orders::newline_line))]
fn read_print(line: &[u8]) -> Line
    ensures { result ≡ print_line (words_in line.now) }
{
    let a = place_at(line, 1)?;
    match word_named(line, 2, b"newline") {
        Named::Yes => ended_at(line, 3, Order::Print(true, a)),
        Named::Other => Err(Wrong::NotNewline),
        Named::Missing => Ok(Some(Order::Print(false, a))),
    }
}

// The order of a line that starts with a name, which ends at index `end`.
fn read_named(line: &[u8], name: Name, end: usize) -> Line
    requires { end ≤ length line.now }
    ensures { result ≡ line_for (Some name) (words_in line.now) (words_in (drop end line.now)) }
{
    match name {
        Name::PutName => read_put(line),
        Name::ComputeName => read_compute(line),
        Name::CopyName => read_copy(line),
        Name::DropName => ended_at(line, 1, Order::Drop),
        Name::StoreName => read_store(line),
        Name::LoadName => read_load(line, end),
        Name::PrintName => read_print(line),
    }
}

pub fn read_line(line: &[u8]) -> Line
    ensures { result ≡ line_of (words_in line.now) }
{
    let Some((start, end)) = words::word_at(line, 0) else {
        return Ok(None);
    };
    let Some(name) = name_of(&line[start..end]) else {
        return Err(Wrong::NoSuchOrder);
    };
    read_named(line, name, end)
}
