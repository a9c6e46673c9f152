// The records of each order, written from a cursor on. Variables go by place in the context; k is how many there are.
ghost use Rattle.std.specs.Prelude.{◌≡◌, true, cond, ◌+◌, ◌*◌, ◌-◌, ◌<◌, ◌≤◌, ◌^◌, eqb, length};
ghost use Rattle.records.specs.Contexts.{ext_at};
ghost use Rattle.records.specs.Orders.{wanted};
ghost use Rattle.trees.specs.Tree.{nop, seq};
ghost use Rattle.emit.specs.Emitted.{Emits};
ghost use Rattle.layout.specs.Config.{Supported, positions};
ghost use Rattle.code.specs.Code.{load_immediate, arithmetic};
ghost use Rattle.memory.specs.Blocks.{erase_block, share_block};
ghost use Rattle.memory.specs.Objects.{fst, snd, ext_in, store_object};
ghost use Rattle.print_i64.specs.Print.{print_i64};
ghost use Rattle.order_spec.specs.Writes.{copy_variable, copy_to, tree_of, present, asked};

use code::emitters;
use emit::cursor::Cursor;
use layout::config::Shape;
use memory::block;
use records::order::{Calculation, Order};

// 1: a value into the new variable's Snd.
fn put(out: &mut [u8], p: Cursor, g: Shape, k: u64, value: u64) -> Cursor
    requires { (2 * k + 2 < positions g) × (p.at + 24 < 2 ^ 64) × Supported g }
    ensures { Emits out.old p out.new result (load_immediate g (snd k) value) }
{
    let w = layout::utils::location_of(2 * k + 1);
    emitters::emit_load_immediate(out, p, g, w, value)
}

// 2: an operation on the Snds of a and b, into the new variable's Snd.
fn compute(
    out: &mut [u8],
    p: Cursor,
    g: Shape,
    operation: Calculation,
    k: u64,
    a: u32,
    b: u32,
) -> Cursor
    requires { (2 * k + 2 < positions g) × (a < k) × (b < k) × (p.at + 216 < 2 ^ 64) × Supported g }
    ensures { Emits out.old p out.new result (arithmetic g operation (snd k) (snd a) (snd b)) }
{
    let w = layout::utils::location_of(2 * k + 1);
    let x = layout::utils::location_of(2 * (a as u64) + 1);
    let y = layout::utils::location_of(2 * (b as u64) + 1);
    emitters::emit_arithmetic(out, p, g, operation, w, x, y)
}

// Variable a into variable v: an integer's Snd alone, else Fst before Snd.
fn copy_variable(out: &mut [u8], p: Cursor, g: Shape, ext: bool, a: u64, v: u64) -> Cursor
    requires { (2 * a + 2 < positions g) × (2 * v + 2 < positions g) × (p.at + 96 < 2 ^ 64) × Supported g }
    ensures { Emits out.old p out.new result (copy_variable g ext a v) }
{
    let to = layout::utils::location_of(2 * v + 1);
    let from = layout::utils::location_of(2 * a + 1);
    if ext {
        return emitters::emit_mov(out, p, g, to, from);
    }
    let w = layout::utils::location_of(2 * v);
    let x = layout::utils::location_of(2 * a);
    let q = emitters::emit_mov(out, p, g, w, x);
    emitters::emit_mov(out, q, g, to, from)
}

// And into the n variables from v on.
fn copy_to(out: &mut [u8], p: Cursor, g: Shape, ext: bool, a: u64, v: u64, n: u64) -> Cursor
    requires { (2 * a + 2 < positions g) × (2 * (v + n) < positions g) × (p.at + 96 * n + 96 < 2 ^ 64) × Supported g }
    ensures { Emits out.old p out.new result (copy_to g ext a v n) }
{
    let mut q = p;
    for i in 0..n {
        q = copy_variable(out, q, g, ext, a, v + i);
    }
    q
}

// n references more to variable a's object, where it is linked.
fn share_linked(out: &mut [u8], p: Cursor, g: Shape, ext: bool, a: u64, n: u64) -> Cursor
    requires { (cond ext 0 (2 * a + 1) ≤ positions g) × (p.at + 120 < 2 ^ 64) × (p.counter + 1 < 2 ^ 32) × Supported g }
    ensures { Emits out.old p out.new result (cond ext nop (share_block g (fst a) n)) }
{
    if ext {
        return p;
    }
    let w = layout::utils::location_of(2 * a);
    block::share(out, p, g, w, n)
}

// 3: variable a, n times.
fn copy(out: &mut [u8], p: Cursor, g: Shape, context: &[u8], k: u64, a: u32, n: u32) -> Cursor
    requires { (8 * k ≤ length context.now) × (a < k) × (cond (eqb n 0) (cond (ext_at context.now a) 0 (2 * a + 1)) (2 * (k + n)) ≤ positions g) × (p.at + 1100000 < 2 ^ 64) × (p.counter + 1 < 2 ^ 32) × Supported g }
    ensures { Emits out.old p out.new result (seq (cond (ext_at context.now a) nop (share_block g (fst a) n)) (copy_to g (ext_at context.now a) a k n)) }
{
    let from = a as u64;
    let times = n as u64;
    let ext = layout::utils::is_ext(context, from);
    let q = share_linked(out, p, g, ext, from, times);
    if times == 0 {
        return q;
    }
    copy_to(out, q, g, ext, from, k, times)
}

// 4: the last variable's object erased, where it is linked.
fn drop_last(out: &mut [u8], p: Cursor, g: Shape, context: &[u8], k: u64) -> Cursor
    requires { (8 * k ≤ length context.now) × (0 < k) × (cond (ext_at context.now (k - 1)) 0 (2 * (k - 1) + 1) ≤ positions g) × (p.at + 288 < 2 ^ 64) × (p.counter + 3 < 2 ^ 32) × Supported g }
    ensures { Emits out.old p out.new result (cond (ext_at context.now (k - 1)) nop (erase_block g (fst (k - 1)))) }
{
    if layout::utils::is_ext(context, k - 1) {
        return p;
    }
    let w = layout::utils::location_of(2 * (k - 1));
    block::erase(out, p, g, w)
}

// 5: the last n of k variables into an object, then the tag into the new variable's Snd.
fn store(out: &mut [u8], p: Cursor, g: Shape, context: &[u8], k: u64, n: u32, tag: u64) -> Cursor
    requires { (8 * k ≤ length context.now) × (n ≤ k) × (2 * k < positions g) × (2 * (k - n) + 2 < positions g) × (p.at + 1100000 < 2 ^ 64) × (p.counter + 7000 < 2 ^ 32) × Supported g }
    ensures { Emits out.old p out.new result (seq (store_object g (ext_in context.now 0) (k - n) n) (load_immediate g (snd (k - n)) tag)) }
{
    let v = k - (n as u64);
    let q = memory_store::store::store_object(out, p, g, context, v, n as u64);
    let w = layout::utils::location_of(2 * v + 1);
    emitters::emit_load_immediate(out, q, g, w, tag)
}

// 7: variable a's Snd printed.
fn print(
    out: &mut [u8],
    p: Cursor,
    g: Shape,
    newline: bool,
    a: u32,
    context: &[u8],
    k: u64,
) -> Cursor
    requires { (2 * a + 2 < positions g) × (8 * k ≤ length context.now) × (k ≤ 4096) × (p.at + 1272 < 2 ^ 64) × Supported g }
    ensures { Emits out.old p out.new result (print_i64 g newline (snd a) (ext_at context.now) k) }
{
    let w = layout::utils::location_of(2 * (a as u64) + 1);
    print_i64::code::emit_print_i64(out, p, g, newline, w, context, k as usize)
}

// The records of an order on k variables that asks for no position past the last, from the output's start on.
pub fn emit_order(
    out: &mut [u8],
    counter: u64,
    g: Shape,
    context: &[u8],
    k: u64,
    bindings: &[u8],
    order: Order,
) -> Cursor
    requires { (8 * k ≤ length context.now) × (k ≤ 4096) × (8 * wanted order ≤ length bindings.now) × (present context.now k bindings.now order ≡ true) × (asked context.now k bindings.now order ≤ positions g) × (counter + 7000 < 2 ^ 32) × Supported g }
    ensures { Emits out.old (record { at = 0; counter = counter }) out.new result (tree_of g context.now k bindings.now order) }
{
    let p = Cursor { at: 0, counter };
    match order {
        Order::Put(value) => put(out, p, g, k, value),
        Order::Compute(operation, a, b) => compute(out, p, g, operation, k, a, b),
        Order::Copy(a, n) => copy(out, p, g, context, k, a, n),
        Order::Drop => drop_last(out, p, g, context, k),
        Order::Store(n, tag) => store(out, p, g, context, k, n, tag),
        Order::Load(n) => memory_load::load::load_object(out, p, g, bindings, k - 1, n as u64),
        Order::Print(newline, a) => print(out, p, g, newline, a, context, k),
    }
}
