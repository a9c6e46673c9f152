// What an order asks, by the causes of the scope: the bindings that follow it, its places, their kinds, its count, its positions.
ghost use Rattle.std.specs.Prelude.{◌≡◌, true, cond, List, ℕ, ◌+◌, ◌*◌, ◌<◌, ◌≤◌, ◌^◌, eqb, length};
ghost use Rattle.records.specs.Contexts.{ext_at};
ghost use Rattle.order_spec.specs.Writes.{count_ok, present, kinds_ok, asked};

use layout::utils::is_ext;
use records::name::MOST_COUNT;
use records::order::Order;

// 4: its places are among k variables.
#[tactic(auto, unfolding(order_spec::specs::Writes::present))]
pub fn present(k: u64, order: Order) -> bool
    ensures { (context bindings : List ℕ) → result ≡ present context k bindings order }
{
    match order {
        Order::Put(_) => true,
        Order::Compute(_, a, b) => (a as u64) < k && (b as u64) < k,
        Order::Copy(a, _) => (a as u64) < k,
        Order::Drop => 0 < k,
        Order::Store(n, _) => (n as u64) <= k,
        Order::Load(_) => 0 < k,
        Order::Print(_, a) => (a as u64) < k,
    }
}

// 5: compute and print take integers, load a linked variable.
#[tactic(auto, unfolding(order_spec::specs::Writes::kinds_ok))]
pub fn kinds_ok(context: &[u8], k: u64, order: Order) -> bool
    requires { (8 * k ≤ length context.now) × (k ≤ 4096) × ((bindings : List ℕ) → present context.now k bindings order ≡ true) }
    ensures { (bindings : List ℕ) → result ≡ kinds_ok context.now k bindings order }
{
    match order {
        Order::Compute(_, a, b) => is_ext(context, a as u64) && is_ext(context, b as u64),
        Order::Load(_) => !is_ext(context, k - 1),
        Order::Print(_, a) => is_ext(context, a as u64),
        Order::Put(_) | Order::Copy(_, _) | Order::Drop | Order::Store(_, _) => true,
    }
}

// 7: a copy's n.
pub fn count_ok(order: Order) -> bool
    ensures { result ≡ count_ok order }
{
    match order {
        Order::Copy(_, n) => (n as u64) <= MOST_COUNT,
        _ => true,
    }
}

// One past variable a's Fst where it is linked.
fn asked_linked(context: &[u8], a: u64) -> u64
    requires { (8 * a + 8 ≤ length context.now) × (a ≤ 4096) }
    ensures { result ≡ cond (ext_at context.now a) 0 (2 * a + 1) }
{
    if is_ext(context, a) { 0 } else { 2 * a + 1 }
}

fn asked_copy(context: &[u8], k: u64, a: u64, n: u64) -> u64
    requires { (8 * a + 8 ≤ length context.now) × (a ≤ 4096) × (k ≤ 4096) × (n < 2 ^ 32) }
    ensures { result ≡ cond (eqb n 0) (cond (ext_at context.now a) 0 (2 * a + 1)) (2 * (k + n)) }
{
    if n == 0 {
        return asked_linked(context, a);
    }
    2 * (k + n)
}

fn asked_if(n: u64, none: u64, some: u64) -> u64
    ensures { result ≡ cond (eqb n 0) none some }
{
    if n == 0 { none } else { some }
}

// 8: one past the highest position that it asks for, 0 where it asks for none.
#[tactic(auto, unfolding(order_spec::specs::Writes::asked))]
pub fn asked(context: &[u8], k: u64, order: Order) -> u64
    requires { (8 * k ≤ length context.now) × (k ≤ 4096) × ((bindings : List ℕ) → present context.now k bindings order ≡ true) }
    ensures { (bindings : List ℕ) → result ≡ asked context.now k bindings order }
{
    match order {
        Order::Put(_) => 2 * k + 2,
        Order::Compute(_, _, _) => 2 * k + 2,
        Order::Copy(a, n) => asked_copy(context, k, a as u64, n as u64),
        Order::Drop => asked_linked(context, k - 1),
        Order::Store(n, _) => asked_if(n as u64, 2 * k + 2, 2 * k),
        Order::Load(n) => asked_if(n as u64, 0, 2 * (k - 1 + (n as u64))),
        Order::Print(_, a) => 2 * (a as u64) + 2,
    }
}
