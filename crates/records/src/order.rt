// Order records: what a channel planner sends.
ghost use Rattle.std.specs.Prelude.{◌≡◌, ◌+◌, ◌≤◌, length};
ghost use Rattle.records.specs.Answers.{AnswersBy};
ghost use Rattle.records.specs.Bytes.{stored};
ghost use Rattle.records.specs.Orders.{flag_of, operation_of, order_fields_of, order_of, largest_in_order, order_ok, order_bytes, order_in, order_start, order_read, order_cause, wanted};

use crate::bytes;
use crate::bytes::{MOST4, MOST8};
use crate::check::Malformed;

#[derive(Clone, Copy)]
pub enum Calculation {
    Add,
    Sub,
    Mul,
    Div,
    Rem,
}

// The seven orders. Variables go by place in the context, from 0.
#[derive(Clone, Copy)]
pub enum Order {
    // value
    Put(u64),
    // operation, a, b
    Compute(Calculation, u32, u32),
    // a, n times
    Copy(u32, u32),
    Drop,
    // n, tag
    Store(u32, u64),
    // n
    Load(u32),
    // whether a newline follows, a
    Print(bool, u32),
}

// The fields of an order record. Those that its code does not use are zero.
#[derive(Clone, Copy)]
pub struct OrderFields {
    pub code: u8,
    pub flag: u8,
    pub a: u32,
    pub b: u32,
    pub n: u32,
    pub value: u64,
}

// Compute's flag.
impl From<Calculation> for u8 {
    ghost from_gives = { λ operation flag. flag ≡ flag_of operation };

    fn from(operation: Calculation) -> u8 {
        match operation {
            Calculation::Add => 0,
            Calculation::Sub => 1,
            Calculation::Mul => 2,
            Calculation::Div => 3,
            Calculation::Rem => 4,
        }
    }
}

// Kept by name: of the bytes that are no flag none comes here, and a TryFrom would ask again.
fn operation_of(flag: u8) -> Calculation
    ensures { result ≡ operation_of flag }
{
    match flag {
        0 => Calculation::Add,
        1 => Calculation::Sub,
        2 => Calculation::Mul,
        3 => Calculation::Div,
        _ => Calculation::Rem,
    }
}

impl OrderFields {
    fn of(code: u8, flag: u8, a: u32, b: u32, n: u32, value: u64) -> Self
        ensures { result ≡ record { code = code; flag = flag; a = a; b = b; n = n; value = value } }
    {
        Self {
            code,
            flag,
            a,
            b,
            n,
            value,
        }
    }
}

pub fn order_fields_of(o: Order) -> OrderFields
    ensures { result ≡ order_fields_of o }
{
    match o {
        Order::Put(value) => OrderFields::of(1, 0, 0, 0, 0, value),
        Order::Compute(operation, a, b) => OrderFields::of(2, u8::from(operation), a, b, 0, 0),
        Order::Copy(a, n) => OrderFields::of(3, 0, a, 0, n, 0),
        Order::Drop => OrderFields::of(4, 0, 0, 0, 0, 0),
        Order::Store(n, tag) => OrderFields::of(5, 0, 0, 0, n, tag),
        Order::Load(n) => OrderFields::of(6, 0, 0, 0, n, 0),
        Order::Print(newline, a) => OrderFields::of(7, u8::from(newline), a, 0, 0, 0),
    }
}

// The order of a record's fields.
fn order_of(f: OrderFields) -> Order
    requires { (1 ≤ f.code) × (f.code ≤ 7) }
    ensures { result ≡ order_of f }
{
    match f.code {
        1 => Order::Put(f.value),
        2 => Order::Compute(operation_of(f.flag), f.a, f.b),
        3 => Order::Copy(f.a, f.n),
        4 => Order::Drop,
        5 => Order::Store(f.n, f.value),
        6 => Order::Load(f.n),
        _ => Order::Print(f.flag == 1, f.a),
    }
}

// The largest value of each field of an order with this code: 0 where the code does not use it.
fn most_in(code: u8) -> OrderFields
    requires { (1 ≤ code) × (code ≤ 7) }
    ensures { result ≡ largest_in_order code }
{
    match code {
        1 => OrderFields::of(code, 0, 0, 0, 0, MOST8),
        2 => OrderFields::of(code, 4, MOST4, MOST4, 0, 0),
        3 => OrderFields::of(code, 0, MOST4, 0, MOST4, 0),
        4 => OrderFields::of(code, 0, 0, 0, 0, 0),
        5 => OrderFields::of(code, 0, 0, 0, MOST4, MOST8),
        6 => OrderFields::of(code, 0, 0, 0, MOST4, 0),
        _ => OrderFields::of(code, 1, MOST4, 0, 0, 0),
    }
}

fn order_ok(f: OrderFields) -> bool
    ensures { result ≡ order_ok f }
{
    if f.code == 0 {
        return false;
    }
    if 7 < f.code {
        return false;
    }
    let m = most_in(f.code);
    if m.flag < f.flag {
        return false;
    }
    if m.a < f.a {
        return false;
    }
    if m.b < f.b {
        return false;
    }
    if m.n < f.n {
        return false;
    }
    f.value <= m.value
}

// The fields of the order that starts `s`.
fn order_in(s: &[u8]) -> OrderFields
    requires { 24 ≤ length s.now }
    ensures { result ≡ order_in s.now }
{
    let a = bytes::number4(s, 4);
    let b = bytes::number4(s, 8);
    let n = bytes::number4(s, 12);
    let value = bytes::number8(s, 16);
    OrderFields {
        code: s[1],
        flag: s[2],
        a,
        b,
        n,
        value,
    }
}

// The order that starts `s`, where a whole, well-formed one does.
pub fn read_start(s: &[u8]) -> Option<Order>
    ensures { result ≡ order_start s.now }
{
    if s.len() < 24 {
        return None;
    }
    if s[0] != 0xA8 {
        return None;
    }
    if s[3] != 0 {
        return None;
    }
    let f = order_in(s);
    if order_ok(f) { Some(order_of(f)) } else { None }
}

// An order alone: refused at place 1 where it is bad or not whole, at place 2 where more follows.
pub fn read_order(s: &[u8]) -> Result<Order, Malformed>
    ensures { AnswersBy order_cause result (order_read s.now) }
{
    let Some(order) = read_start(s) else {
        return Err(Malformed { place: 1 });
    };
    if s.len() == 24 {
        Ok(order)
    } else {
        Err(Malformed { place: 2 })
    }
}

// The record of o at byte `at`, whole, or nothing where it does not fit.
pub fn write_order(out: &mut [u8], at: usize, o: Order)
    ensures { out.new ≡ stored out.old at (order_bytes (order_fields_of o)) }
{
    let f = order_fields_of(o);
    if 24 <= out.len() && at <= out.len() - 24 {
        bytes::store_head(out, at, 0xA8, f.code, f.flag, 0);
        bytes::store4(out, at + 4, f.a);
        bytes::store4(out, at + 8, f.b);
        bytes::store4(out, at + 12, f.n);
        bytes::store8(out, at + 16, f.value);
    }
}

// How many bindings follow an order.
pub fn wanted(order: Order) -> u32
    ensures { result ≡ wanted order }
{
    match order {
        Order::Load(n) => n,
        _ => 0,
    }
}
