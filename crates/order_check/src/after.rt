// The context after an order: what it keeps of the one before, and the bindings that it makes or brings.
ghost use Rattle.std.specs.Prelude.{◌≡◌, true, ◌++◌, ◌+◌, ◌*◌, ◌-◌, ◌<◌, ◌≤◌, ◌^◌, length, take};
ghost use Rattle.std.proofs.lemmas.List.Edits.{sets};
ghost use Rattle.records.specs.Orders.{wanted};
ghost use Rattle.order_spec.specs.Writes.{kind_at, made_all, context_after, present};
ghost use Rattle.order_check.specs.After.{count_after};

use records::binding::{Binding, Kind};
use records::order::Order;

// How many bindings it has.
pub fn count_after(k: u64, order: Order) -> u64
    requires { k ≤ 4096 }
    ensures { result ≡ count_after k order }
{
    match order {
        Order::Put(_) => k + 1,
        Order::Compute(_, _, _) => k + 1,
        Order::Copy(_, n) => k + (n as u64),
        Order::Drop => k.saturating_sub(1),
        Order::Store(n, _) => k.saturating_sub(n as u64) + 1,
        Order::Load(n) => k.saturating_sub(1) + (n as u64),
        Order::Print(_, _) => k,
    }
}

// The bindings of n made variables, from byte `at` on.
fn make_bindings(out: &mut [u8], at: usize, kind: Kind, place: u64, n: u64)
    requires { (place + n < 2 ^ 32) × (at + 8 * n ≤ length out.old) }
    ensures { out.new ≡ sets out.old at (made_all kind place n) }
{
    for i in 0..n {
        let id = (place + i) as u32;
        records::binding::write_binding(out, at + 8 * (i as usize), Binding { kind, id });
    }
}

// The first `kept` variables, then n that are made; their kind says nothing where n is 0.
fn keep_and_make(out: &mut [u8], context: &[u8], kept: u64, kind: Kind, n: u64)
    requires { (kept ≤ 4096) × (kept + n < 2 ^ 32) × (8 * kept ≤ length context.now) × (8 * (kept + n) ≤ length out.old) }
    ensures { out.new ≡ sets out.old 0 (take (8 * kept) context.now ++ made_all kind kept n) }
{
    let end = (8 * kept) as usize;
    records::bytes::copy_bytes(out, 0, context, end);
    make_bindings(out, end, kind, kept, n);
}

// The first `kept` variables, then those that a load brings.
fn keep_and_bring(out: &mut [u8], context: &[u8], kept: u64, bindings: &[u8])
    requires { (kept ≤ 4096) × (8 * kept ≤ length context.now) × (8 * kept + length bindings.now ≤ length out.old) }
    ensures { out.new ≡ sets out.old 0 (take (8 * kept) context.now ++ bindings.now) }
{
    let end = (8 * kept) as usize;
    records::bytes::copy_bytes(out, 0, context, end);
    records::bytes::copy_bytes(out, end, bindings, bindings.len());
}

// The kind of variable a.
fn kind_at(context: &[u8], a: u64) -> Kind
    requires { 8 * a + 8 ≤ length context.now }
    ensures { result ≡ kind_at context.now a }
{
    if layout::utils::is_ext(context, a) {
        Kind::Ext
    } else {
        Kind::Linked
    }
}

// The context after an order on the k variables of `context`.
pub fn write_context(out: &mut [u8], context: &[u8], k: u64, bindings: &[u8], order: Order)
    requires { (length context.now ≡ 8 * k) × (k ≤ 4096) × (length bindings.now ≡ 8 * wanted order) × (present context.now k bindings.now order ≡ true) × (count_after k order < 2 ^ 32) × (8 * count_after k order ≤ length out.old) }
    ensures { out.new ≡ sets out.old 0 (context_after context.now k bindings.now order) }
{
    match order {
        Order::Put(_) => keep_and_make(out, context, k, Kind::Ext, 1),
        Order::Compute(_, _, _) => keep_and_make(out, context, k, Kind::Ext, 1),
        Order::Copy(a, n) => {
            let kind = kind_at(context, a as u64);
            keep_and_make(out, context, k, kind, n as u64)
        }
        Order::Drop => keep_and_make(out, context, k - 1, Kind::Ext, 0),
        Order::Store(n, _) => keep_and_make(out, context, k - (n as u64), Kind::Linked, 1),
        Order::Load(_) => keep_and_bring(out, context, k - 1, bindings),
        Order::Print(_, _) => keep_and_make(out, context, k, Kind::Ext, 0),
    }
}
