// Variables stored into an object of as many blocks as they need, from memory.rs.
// `kinds` is binding records, of which the first is variable `first`'s.
ghost use Rattle.std.specs.Prelude.{◌≡◌, ◌+◌, ◌*◌, ◌-◌, ◌<◌, ◌≤◌, ◌^◌, ltb, length, Ok};
ghost use Rattle.records.specs.Contexts.{checked_context};
ghost use Rattle.trees.specs.Tree.{flat};
ghost use Rattle.emit.specs.Emitted.{Emits};
ghost use Rattle.emit.specs.Answers.{Answers};
ghost use Rattle.layout.specs.Config.{Supported, positions};
ghost use Rattle.memory.specs.Objects.{ext_in, store_zeros, store_fst, store_value, store_values, store_other, store_others, store_some, store_object};
ghost use Rattle.memory.specs.Answered.{tree_answer, store_tree, store_highest, store_answer, store_in, store_records_in};

use emit::answer::{Answer, Refusal, Written};
use emit::cursor::{Cursor, Row};
use layout::config::{HEAP, Shape, Unshaped};
use memory::block;
use records::number::MOVIM;

// A zero in the Fst of each of the first n fields.
fn store_zeros(out: &mut [u8], p: Cursor, n: u64) -> Cursor
    requires { (n ≤ 65536) × (p.at + 24 * n < 2 ^ 64) }
    ensures { Emits out.old p out.new result (store_zeros n) }
{
    let mut q = p;
    for i in 0..n {
        let offset = layout::offset::fst_offset(i);
        q = emit::cursor::emit(out, q, Row(MOVIM, HEAP, 0, 0, offset, 0));
    }
    q
}

// A variable's pointer into field t, or zero where it is an integer.
fn store_fst(out: &mut [u8], p: Cursor, g: Shape, ext: bool, v: u64, t: u64) -> Cursor
    requires { (2 * v + 2 < positions g) × (t < g.fields) × (p.at + 48 < 2 ^ 64) × Supported g }
    ensures { Emits out.old p out.new result (store_fst g ext v t) }
{
    let offset = layout::offset::fst_offset(t);
    if ext {
        emit::cursor::emit(out, p, Row(MOVIM, HEAP, 0, 0, offset, 0))
    } else {
        let w = layout::utils::location_of(2 * v);
        block::store_field(out, p, g, w, HEAP, offset)
    }
}

// Variable v into field t of HEAP's block.
fn store_value(
    out: &mut [u8],
    p: Cursor,
    g: Shape,
    kinds: &[u8],
    first: u64,
    v: u64,
    t: u64,
) -> Cursor
    requires { (first ≤ v) × (8 * (v - first) + 8 ≤ length kinds.now) × (2 * v + 2 < positions g) × (t < g.fields) × (p.at + 96 < 2 ^ 64) × Supported g }
    ensures { Emits out.old p out.new result (store_value g (ext_in kinds.now first) v t) }
{
    let offset = layout::offset::snd_offset(t);
    let w = layout::utils::location_of(2 * v + 1);
    let q = block::store_field(out, p, g, w, HEAP, offset);
    let ext = layout::utils::is_ext(kinds, v - first);
    store_fst(out, q, g, ext, v, t)
}

// The k variables from v on into the last of the first `free` fields, and zeros before them.
fn store_values(
    out: &mut [u8],
    p: Cursor,
    g: Shape,
    kinds: &[u8],
    first: u64,
    v: u64,
    k: u64,
    free: u64,
) -> Cursor
    requires { (first ≤ v) × (8 * (v + k - first) ≤ length kinds.now) × (2 * (v + k) < positions g) × (k ≤ free) × (free ≤ g.fields) × (p.at + 96 * k + 168 < 2 ^ 64) × Supported g }
    ensures { Emits out.old p out.new result (store_values g (ext_in kinds.now first) v k free) }
{
    let mut q = p;
    let zeros = free - k;
    for i in (0..k).rev() {
        q = store_value(out, q, g, kinds, first, v + i, zeros + i);
    }
    store_zeros(out, q, zeros)
}

// The link to the block just stored, then k variables from v on, into a block of `each` of them that goes into variable v's Fst.
fn store_other(
    out: &mut [u8],
    p: Cursor,
    g: Shape,
    kinds: &[u8],
    first: u64,
    each: u64,
    v: u64,
    k: u64,
) -> Cursor
    requires { (first ≤ v) × (8 * (v + k - first) ≤ length kinds.now) × (2 * (v + k) < positions g) × (k ≤ each) × (p.at + 3400 < 2 ^ 64) × (p.counter + 25 < 2 ^ 32) × (each + 1 ≡ g.fields) × Supported g }
    ensures { Emits out.old p out.new result (store_other g (ext_in kinds.now first) v k) }
{
    let link = layout::utils::location_of(2 * (v + k));
    let pointer = layout::utils::location_of(2 * v);
    let offset = layout::offset::fst_offset(each);
    let q = block::store_field(out, p, g, link, HEAP, offset);
    let s = store_values(out, q, g, kinds, first, v, k, each);
    block::acquire_block(out, s, g, pointer)
}

// The n variables from v on, in m blocks before the last.
fn store_others(
    out: &mut [u8],
    p: Cursor,
    g: Shape,
    kinds: &[u8],
    first: u64,
    each: u64,
    m: u64,
    v: u64,
    n: u64,
) -> Cursor
    requires { (first ≤ v) × (8 * (v + n - first) ≤ length kinds.now) × (2 * (v + n) < positions g) × (p.at + 3096 * m + 400 < 2 ^ 64) × (p.counter + 25 * m < 2 ^ 32) × (each + 1 ≡ g.fields) × Supported g }
    ensures { Emits out.old p out.new result (store_others g (ext_in kinds.now first) m v n) }
{
    let mut q = p;
    let mut left = n;
    for _ in 0..m {
        let rest = left.saturating_sub(each);
        q = store_other(out, q, g, kinds, first, each, v + rest, left - rest);
        left = rest;
    }
    q
}

// The last block of n variables from v on, and those before it.
pub fn store_some(
    out: &mut [u8],
    p: Cursor,
    g: Shape,
    kinds: &[u8],
    first: u64,
    v: u64,
    n: u64,
) -> Cursor
    requires { (first ≤ v) × (8 * (v + n - first) ≤ length kinds.now) × (2 * (v + n) < positions g) × (p.at + 1000000 < 2 ^ 64) × (p.counter + 7000 < 2 ^ 32) × Supported g }
    ensures { Emits out.old p out.new result (store_some g (ext_in kinds.now first) v n) }
{
    let fields = g.fields;
    let each = fields - 1;
    let rest = n.saturating_sub(fields);
    let pointer = layout::utils::location_of(2 * (v + rest));
    let q = store_values(out, p, g, kinds, first, v + rest, n - rest, fields);
    let s = block::acquire_block(out, q, g, pointer);
    store_others(
        out,
        s,
        g,
        kinds,
        first,
        each,
        memory_bounds::other_blocks(g, rest),
        v,
        rest,
    )
}

// n variables from v on into an object whose pointer goes into variable v's Fst; zero for none.
pub fn store_object(out: &mut [u8], p: Cursor, g: Shape, kinds: &[u8], v: u64, n: u64) -> Cursor
    requires { (8 * (v + n) ≤ length kinds.now) × (2 * (v + n) < positions g) × (p.at + 1000000 < 2 ^ 64) × (p.counter + 7000 < 2 ^ 32) × Supported g }
    ensures { Emits out.old p out.new result (store_object g (ext_in kinds.now 0) v n) }
{
    if n == 0 {
        let w = layout::utils::location_of(2 * v);
        code::emitters::emit_load_immediate(out, p, g, w, 0)
    } else {
        store_some(out, p, g, kinds, 0, v, n)
    }
}

// Whether there are positions for a store of n of k variables.
fn store_fits(g: Shape, k: u64, n: u64) -> bool
    requires { (k ≤ 4096) × Supported g }
    ensures { result ≡ ltb (store_highest k n) (positions g) }
{
    let positions = g.spills + 11;
    if n == 0 {
        return 2 * k < positions;
    }
    2 * k < positions + 1
}

// A first pass on another output tells the size, and the second writes.
fn store_sized(out: &mut [u8], g: Shape, counter: u64, kinds: &[u8], v: u64, n: u64) -> Answer
    requires { (8 * (v + n) ≤ length kinds.now) × (2 * (v + n) < positions g) × Supported g }
    ensures { Answers out.old out.new result (tree_answer counter (length out.old) (store_object g (ext_in kinds.now 0) v n)) (flat (store_object g (ext_in kinds.now 0) v n) counter) }
{
    let mut none = [0u8; 1];
    let need = store_object(&mut none, Cursor { at: 0, counter: 0 }, g, kinds, v, n);
    let written = emit::answer::grant(counter, out.len(), need)?;
    store_object(out, Cursor { at: 0, counter }, g, kinds, v, n);
    Ok(written)
}

// A store of the last n of the k variables of a context.
fn store_last(out: &mut [u8], g: Shape, counter: u64, context: &[u8], k: u64, n: u64) -> Answer
    requires { (checked_context context.now ≡ Ok k) × Supported g }
    ensures { Answers out.old out.new result (store_answer g counter (length out.old) context.now n) (flat (store_tree g context.now n) counter) }
{
    if k < n {
        return Err(Refusal::Missing);
    }
    if !store_fits(g, k, n) {
        return Err(Refusal::Position);
    }
    let v = k - n;
    if memory_bounds::store_ample(g, counter, out.len(), v, n, 0) {
        let q = store_object(out, Cursor { at: 0, counter }, g, context, v, n);
        return Ok(Written::up_to(q));
    }
    store_sized(out, g, counter, context, v, n)
}

// The last n variables of a context into an object, whose pointer goes into the first one's Fst.
pub fn store(
    out: &mut [u8],
    edition: u64,
    frame: u64,
    counter: u64,
    context: &[u8],
    n: u64,
) -> Answer
    ensures { Answers out.old out.new result (store_in edition frame counter (length out.old) context.now n) (store_records_in edition frame counter context.now n) }
{
    match layout::config::shape_of(edition, frame) {
        Ok(g) => store_in(out, g, counter, context, n),
        Err(Unshaped::NoFrame) => emit::answer::unframed(context),
        Err(Unshaped::NoEdition) => Err(Refusal::Edition),
    }
}

fn store_in(out: &mut [u8], g: Shape, counter: u64, context: &[u8], n: u64) -> Answer
    requires { Supported g }
    ensures { Answers out.old out.new result (store_answer g counter (length out.old) context.now n) (flat (store_tree g context.now n) counter) }
{
    let k = records::context::check_context(context)?;
    store_last(out, g, counter, context, k as u64, n)
}
