// The fields of an object's blocks, one block after the other, loaded into variables. From memory.rs.
// `kinds` is binding records, of which the first is variable `first`'s.
#![tactic(auto)]

ghost use Rattle.std.specs.Prelude.{◌≡◌, refl, not, ◌&&◌, ◌||◌, cond, ◌+◌, ◌*◌, ◌-◌, ◌<◌, ◌≤◌, ◌^◌, ltb, length};
ghost use Rattle.records.specs.declared.code.Code.TheVariants.{MOVL};
ghost use Rattle.trees.specs.Tree.{nop, leaf};
ghost use Rattle.emit.specs.Emitted.{Emits};
ghost use Rattle.layout.specs.Config.{Supported, STACK, RETURN1, stack_offset, operands, positions};
ghost use Rattle.layout.specs.Positions.{entries};
ghost use Rattle.memory.specs.Objects.{ext_in, share_loaded, load_fst, load_value, load_values, release_unless, load_link, capacity, set_aside, restore, load_body, load_block, load_some, fst};
ghost use Rattle.memory_load_blocks.specs.Blocks.{AllBlocks};

use emit::cursor::{Cursor, Row};
use layout::config::{self, SPILL_TEMP, Shape, TEMP};
use memory::block;
use records::number::{self, MOVS};

// A pointer just loaded to w is shared where it stays in its block too.
fn share_loaded(out: &mut [u8], p: Cursor, shared: bool, w: u64) -> Cursor
    requires { (p.at + 96 < 2 ^ 64) × (p.counter + 1 < 2 ^ 32) }
    ensures { Emits out.old p out.new result (share_loaded shared w) }
{
    if shared {
        if w < 16 {
            block::share_register(out, p, w as u8, 1)
        } else {
            block::share_register(out, p, TEMP, 1)
        }
    } else {
        p
    }
}

// Field t's pointer into variable v, unless it is an integer.
fn load_fst(
    out: &mut [u8],
    p: Cursor,
    g: Shape,
    ext: bool,
    shared: bool,
    v: u64,
    t: u64,
    r: u8,
) -> Cursor
    requires { (2 * v + 2 < positions g) × (t < g.fields) × (p.at + 144 < 2 ^ 64) × (p.counter + 1 < 2 ^ 32) × Supported g }
    ensures { Emits out.old p out.new result (load_fst g ext shared v t r) }
{
    if ext {
        return p;
    }
    let offset = layout::offset::fst_offset(t);
    let w = layout::utils::location_of(2 * v);
    let q = block::load_field(out, p, g, w, r, offset);
    share_loaded(out, q, shared, w)
}

// Field t of the block in register r into variable v.
fn load_value(
    out: &mut [u8],
    p: Cursor,
    g: Shape,
    kinds: &[u8],
    first: u64,
    shared: bool,
    v: u64,
    t: u64,
    r: u8,
) -> Cursor
    requires { (first ≤ v) × (8 * (v - first) + 8 ≤ length kinds.now) × (2 * v + 2 < positions g) × (t < g.fields) × (p.at + 192 < 2 ^ 64) × (p.counter + 1 < 2 ^ 32) × Supported g }
    ensures { Emits out.old p out.new result (load_value g (ext_in kinds.now first) shared v t r) }
{
    let offset = layout::offset::snd_offset(t);
    let w = layout::utils::location_of(2 * v + 1);
    let q = block::load_field(out, p, g, w, r, offset);
    let ext = layout::utils::is_ext(kinds, v - first);
    load_fst(out, q, g, ext, shared, v, t, r)
}

// The last k of the first `free` fields into the k variables from v on.
fn load_values(
    out: &mut [u8],
    p: Cursor,
    g: Shape,
    kinds: &[u8],
    first: u64,
    shared: bool,
    v: u64,
    k: u64,
    free: u64,
    r: u8,
) -> Cursor
    requires { (first ≤ v) × (8 * (v + k - first) ≤ length kinds.now) × (2 * (v + k) < positions g) × (k ≤ free) × (free ≤ g.fields) × (p.at + 192 * k + 24 < 2 ^ 64) × (p.counter + k < 2 ^ 32) × Supported g }
    ensures { Emits out.old p out.new result (load_values g (ext_in kinds.now first) shared v k free r) }
{
    let mut q = p;
    let unused = free - k;
    for i in (0..k).rev() {
        q = load_value(out, q, g, kinds, first, shared, v + i, unused + i, r);
    }
    q
}

fn release_unless(out: &mut [u8], p: Cursor, shared: bool, r: u8) -> Cursor
    requires { p.at + 48 < 2 ^ 64 }
    ensures { Emits out.old p out.new result (release_unless shared r) }
{
    if shared {
        return p;
    }
    block::release_block(out, p, r)
}

// The link to the next block into variable v's Fst, unless the block is the last.
fn load_link(out: &mut [u8], p: Cursor, g: Shape, other: bool, v: u64, r: u8) -> Cursor
    requires { (2 * v < positions g) × (p.at + 48 < 2 ^ 64) × Supported g }
    ensures { Emits out.old p out.new result (load_link g other v r) }
{
    if other {
        let offset = layout::offset::fst_offset(g.fields - 1);
        let w = layout::utils::location_of(2 * v);
        block::load_field(out, p, g, w, r, offset)
    } else {
        p
    }
}

// Register 4 into spill 0, unless it is there already.
fn set_aside(out: &mut [u8], p: Cursor, g: Shape, aside: bool) -> Cursor
    requires { (p.at + 24 < 2 ^ 64) × Supported g }
    ensures { Emits out.old p out.new result (set_aside g aside) }
{
    if aside {
        return p;
    }
    let offset = layout::offset::spill_offset(g, SPILL_TEMP);
    emit::cursor::emit(
        out,
        p,
        Row(MOVS, config::RETURN1, config::STACK, 0, offset, 0),
    )
}

// And back, after the last block.
fn restore_aside(out: &mut [u8], p: Cursor, g: Shape, other: bool) -> Cursor
    requires { (p.at + 24 < 2 ^ 64) × Supported g }
    ensures { Emits out.old p out.new result (restore g other) }
{
    if other {
        return p;
    }
    let offset = layout::offset::spill_offset(g, SPILL_TEMP);
    emit::cursor::emit(
        out,
        p,
        Row(number::MOVL, config::RETURN1, config::STACK, 0, offset, 0),
    )
}

fn capacity_of(g: Shape, other: bool) -> u64
    requires { Supported g }
    ensures { (result ≡ capacity g other) × (result ≤ g.fields) }
{
    let fields = g.fields;
    if other { fields - 1 } else { fields }
}

// k variables from v on out of the block in register r, and before them the link to the next block.
fn load_body(
    out: &mut [u8],
    p: Cursor,
    g: Shape,
    kinds: &[u8],
    first: u64,
    shared: bool,
    other: bool,
    v: u64,
    k: u64,
    r: u8,
) -> Cursor
    requires { (first ≤ v) × (8 * (v + k - first) ≤ length kinds.now) × (2 * (v + k) < positions g) × (k ≤ capacity g other) × (p.at + 1500 < 2 ^ 64) × (p.counter + k < 2 ^ 32) × Supported g }
    ensures { Emits out.old p out.new result (load_body g (ext_in kinds.now first) shared other v k r) }
{
    let free = capacity_of(g, other);
    let q = release_unless(out, p, shared, r);
    let s = load_link(out, q, g, other, v + k, r);
    load_values(out, s, g, kinds, first, shared, v, k, free, r)
}

// The register that a block is reached by: its own, or 4 for one in a spill.
fn block_register(w: u64) -> u8
    ensures { result ≡ cond (ltb w 16) w RETURN1 }
{
    if w < 16 { w as u8 } else { config::RETURN1 }
}

// A pointer in spill w into register 4.
fn borrow_register(out: &mut [u8], p: Cursor, g: Shape, w: u64) -> Cursor
    requires { (p.at + 24 < 2 ^ 64) × (w < operands g) × Supported g }
    ensures { Emits out.old p out.new result (cond (ltb w 16) nop (leaf (MOVL RETURN1 STACK (stack_offset g w)) refl)) }
{
    if w < 16 {
        return p;
    }
    let offset = layout::offset::spill_offset(g, w);
    emit::cursor::emit(
        out,
        p,
        Row(number::MOVL, config::RETURN1, config::STACK, 0, offset, 0),
    )
}

// The same out of the block in variable v's Fst: one in a spill goes through register 4.
fn load_block(
    out: &mut [u8],
    p: Cursor,
    g: Shape,
    kinds: &[u8],
    first: u64,
    shared: bool,
    other: bool,
    aside: bool,
    v: u64,
    k: u64,
) -> Cursor
    requires { (first ≤ v) × (8 * (v + k - first) ≤ length kinds.now) × (2 * (v + k) < positions g) × (k ≤ capacity g other) × (p.at + 1600 < 2 ^ 64) × (p.counter + k < 2 ^ 32) × Supported g }
    ensures { Emits out.old p out.new result (load_block g (ext_in kinds.now first) shared other aside v k) }
{
    let w = layout::utils::location_of(2 * v);
    let q = set_aside(out, p, g, w < 16 || aside);
    let s = borrow_register(out, q, g, w);
    let t = load_body(
        out,
        s,
        g,
        kinds,
        first,
        shared,
        other,
        v,
        k,
        block_register(w),
    );
    restore_aside(out, t, g, w < 16 || other)
}

// Whether a block before the one that starts with variable v + n lay in a spill.
fn freed_before(each: u64, v: u64, n: u64) -> bool
    requires { 2 * (v + n) < entries }
    ensures { result ≡ (ltb 0 n && not (ltb (fst (v + (n - each))) 16)) }
{
    if n == 0 {
        return false;
    }
    let rest = n.saturating_sub(each);
    16 <= layout::utils::location_of(2 * (v + rest))
}

fn either(other: bool, to: u64, n: u64) -> u64
    ensures { result ≡ cond other to n }
{
    if other { to } else { n }
}

// n variables from v on, out of m blocks and the last: `rest` are before it, `each` of them out of a block, and out of the first what is left.
fn load_all(
    out: &mut [u8],
    p: Cursor,
    g: Shape,
    kinds: &[u8],
    first: u64,
    shared: bool,
    each: u64,
    m: u64,
    rest: u64,
    v: u64,
    n: u64,
) -> Cursor
    requires { AllBlocks g first v n (length kinds.now) each m rest × (p.at + 1520 * m + 3100 < 2 ^ 64) × (p.counter + 7 * m + 7 < 2 ^ 32) }
    ensures { Emits out.old p out.new result (load_some g (ext_in kinds.now first) shared v n) }
{
    let mut q = p;
    let mut from = 0;
    let mut to = rest + each - each * m;
    for i in 0..m + 1 {
        let other = i < m;
        let end = either(other, to, n);
        let aside = freed_before(each, v, from);
        q = load_block(
            out,
            q,
            g,
            kinds,
            first,
            shared,
            other,
            aside,
            v + from,
            end - from,
        );
        from = to;
        to += each;
    }
    q
}

// n variables from v on, out of all blocks of an object.
pub fn load_some(
    out: &mut [u8],
    p: Cursor,
    g: Shape,
    kinds: &[u8],
    first: u64,
    shared: bool,
    v: u64,
    n: u64,
) -> Cursor
    requires { (first ≤ v) × (8 * (v + n - first) ≤ length kinds.now) × (2 * (v + n) < positions g) × (p.at + 400000 < 2 ^ 64) × (p.counter + 2000 < 2 ^ 32) × Supported g }
    ensures { Emits out.old p out.new result (load_some g (ext_in kinds.now first) shared v n) }
{
    let each = g.fields - 1;
    let rest = n.saturating_sub(g.fields);
    load_all(
        out,
        p,
        g,
        kinds,
        first,
        shared,
        each,
        memory_bounds::other_blocks(g, rest),
        rest,
        v,
        n,
    )
}
