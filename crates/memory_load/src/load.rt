// An object's variables loaded: its blocks are released where no other pointer names it, else its children are shared. From memory.rs.
ghost use Rattle.std.specs.Prelude.{◌≡◌, refl, true, false, cond, ◌+◌, ◌*◌, ◌<◌, ◌≤◌, ◌^◌, ltb, length};
ghost use Rattle.records.specs.declared.code.Code.TheVariants.{MOVL, ADDIM, CMPIM};
ghost use Rattle.records.specs.Contexts.{ext_at};
ghost use Rattle.trees.specs.Tree.{nop, leaf, seq, if_zero, flat};
ghost use Rattle.emit.specs.Emitted.{Emits};
ghost use Rattle.emit.specs.Answers.{accepted, Answers};
ghost use Rattle.layout.specs.Config.{Supported, STACK, TEMP, MINUSONE, stack_offset, operands, positions};
ghost use Rattle.memory.specs.Objects.{ext_in, load_some, load_object};
ghost use Rattle.memory.specs.Answered.{tree_answer};
ghost use Rattle.memory.specs.LoadAnswered.{load_tree, load_fits, load_after, load_answer, unframed_load, load_in, load_records_in};
ghost use Rattle.memory_load.specs.Linked.{one_if_linked, linked_in};

use emit::answer::{Answer, Refusal, Written};
use emit::cursor::{Cursor, Row};
use layout::config::{self, MINUS_ONE, Shape, Unshaped};
use records::context;
use records::number::{self, JEL, JMPL, LAB};

fn one_if_linked(ext: bool) -> u64
    ensures { (result ≡ one_if_linked ext) × (result ≤ 1) }
{
    if ext { 0 } else { 1 }
}

// How many of the first n binding records are of linked variables.
fn linked(kinds: &[u8], n: u64) -> u64
    requires { (8 * n ≤ length kinds.now) × (n ≤ 4096) }
    ensures { (result ≡ linked_in (ext_at kinds.now) 0 n) × (result ≤ n) }
{
    let mut count: u64 = 0;
    for i in 0..n {
        let ext = layout::utils::is_ext(kinds, i);
        count = count + one_if_linked(ext);
    }
    count
}

// One reference fewer to the object in register r, and its children shared.
fn load_shared(out: &mut [u8], p: Cursor, g: Shape, kinds: &[u8], v: u64, n: u64, r: u8) -> Cursor
    requires { (8 * n ≤ length kinds.now) × (2 * (v + n) < positions g) × (p.at + 400024 < 2 ^ 64) × (p.counter + 2000 < 2 ^ 32) × Supported g }
    ensures { Emits out.old p out.new result (seq (leaf (ADDIM r 0 MINUSONE) refl) (load_some g (ext_in kinds.now v) true v n)) }
{
    let q = emit::cursor::emit(out, p, Row(number::ADDIM, r, 0, 0, 0, MINUS_ONE));
    memory_load_blocks::load_some(out, q, g, kinds, v, true, v, n)
}

// By the count of the object in register r. A load that releases draws no label, one that shares draws one for each linked variable.
fn load_counted(out: &mut [u8], p: Cursor, g: Shape, kinds: &[u8], v: u64, n: u64, r: u8) -> Cursor
    requires { (8 * n ≤ length kinds.now) × (2 * (v + n) < positions g) × (p.at + 600000 < 2 ^ 64) × (p.counter + 2500 < 2 ^ 32) × Supported g }
    ensures { Emits out.old p out.new result (if_zero (CMPIM r 0 0) refl (load_some g (ext_in kinds.now v) false v n) (seq (leaf (ADDIM r 0 MINUSONE) refl) (load_some g (ext_in kinds.now v) true v n))) }
{
    let counter = p.counter + linked(kinds, n) + 2;
    let end = counter as u32;
    let l = end - 1;
    let q = emit::cursor::emit2(
        out,
        p,
        Row(number::CMPIM, r, 0, 0, 0, 0),
        Row(JEL, 0, 0, l, 0, 0),
    );
    let s = load_shared(out, q, g, kinds, v, n, r);
    let t = emit::cursor::emit2(out, s, Row(JMPL, 0, 0, end, 0, 0), Row(LAB, 0, 0, l, 0, 0));
    let u = memory_load_blocks::load_some(
        out,
        Cursor {
            at: t.at,
            counter: p.counter,
        },
        g,
        kinds,
        v,
        false,
        v,
        n,
    );
    let w = emit::cursor::emit(out, u, Row(LAB, 0, 0, end, 0, 0));
    Cursor { at: w.at, counter }
}

// The pointer in operand w into a register.
fn into_register(out: &mut [u8], p: Cursor, g: Shape, w: u64) -> Cursor
    requires { (w < operands g) × (p.at + 24 < 2 ^ 64) × Supported g }
    ensures { Emits out.old p out.new result (cond (ltb w 16) nop (leaf (MOVL TEMP STACK (stack_offset g w)) refl)) }
{
    if w < 16 {
        return p;
    }
    let offset = layout::offset::spill_offset(g, w);
    emit::cursor::emit(
        out,
        p,
        Row(number::MOVL, config::TEMP, config::STACK, 0, offset, 0),
    )
}

// n variables after v, out of the object in the Fst past those.
pub fn load_object(out: &mut [u8], p: Cursor, g: Shape, kinds: &[u8], v: u64, n: u64) -> Cursor
    requires { (8 * n ≤ length kinds.now) × (load_fits g v n ≡ true) × (p.at + 600024 < 2 ^ 64) × (p.counter + 2500 < 2 ^ 32) × Supported g }
    ensures { Emits out.old p out.new result (load_object g (ext_in kinds.now v) v n) }
{
    if n == 0 {
        return p;
    }
    let w = layout::utils::location_of(2 * v);
    let q = into_register(out, p, g, w);
    load_counted(out, q, g, kinds, v, n, layout::utils::register_for(w))
}

// Whether n variables after v have positions.
fn load_fits(g: Shape, v: u64, n: u64) -> bool
    requires { (v ≤ 4096) × (n ≤ 4096) × Supported g }
    ensures { result ≡ load_fits g v n }
{
    let positions = g.spills + 11;
    n == 0 || 2 * (v + n) < positions + 1
}

// A first pass on another output tells the size, and the second writes.
fn load_sized(out: &mut [u8], g: Shape, counter: u64, loaded: &[u8], v: u64, n: u64) -> Answer
    requires { (8 * n ≤ length loaded.now) × (load_fits g v n ≡ true) × Supported g }
    ensures { Answers out.old out.new result (tree_answer counter (length out.old) (load_object g (ext_in loaded.now v) v n)) (flat (load_object g (ext_in loaded.now v) v n) counter) }
{
    let mut none = [0u8; 1];
    let need = load_object(&mut none, Cursor { at: 0, counter: 0 }, g, loaded, v, n);
    let written = emit::answer::grant(counter, out.len(), need)?;
    load_object(out, Cursor { at: 0, counter }, g, loaded, v, n);
    Ok(written)
}

// A load of n variables after v.
fn load_after(out: &mut [u8], g: Shape, counter: u64, loaded: &[u8], v: u64, n: u64) -> Answer
    requires { (v ≤ 4096) × (n ≤ 4096) × (8 * n ≤ length loaded.now) × Supported g }
    ensures { Answers out.old out.new result (load_after g counter (length out.old) loaded.now v n) (flat (load_object g (ext_in loaded.now v) v n) counter) }
{
    if !load_fits(g, v, n) {
        return Err(Refusal::Position);
    }
    if memory_bounds::load_ample(g, counter, out.len(), n) {
        let q = load_object(out, Cursor { at: 0, counter }, g, loaded, v, n);
        return Ok(Written::up_to(q));
    }
    load_sized(out, g, counter, loaded, v, n)
}

// The variables of one context, out of the object in the Fst past the existing context.
pub fn load(
    out: &mut [u8],
    edition: u64,
    frame: u64,
    counter: u64,
    loaded: &[u8],
    existing: &[u8],
) -> Answer
    ensures { Answers out.old out.new result (load_in edition frame counter (length out.old) loaded.now existing.now) (load_records_in edition frame counter loaded.now existing.now) }
{
    match layout::config::shape_of(edition, frame) {
        Ok(g) => load_in(out, g, counter, loaded, existing),
        Err(Unshaped::NoFrame) => unframed(loaded, existing),
        Err(Unshaped::NoEdition) => Err(Refusal::Edition),
    }
}

// What a frame of another number of spills is answered.
fn unframed(loaded: &[u8], existing: &[u8]) -> Answer
    ensures { (result ≡ unframed_load loaded.now existing.now) × (accepted result ≡ false) }
{
    let v = context::check_context(existing)?;
    context::check_after(v, loaded)?;
    Err(Refusal::Operand)
}

fn load_in(out: &mut [u8], g: Shape, counter: u64, loaded: &[u8], existing: &[u8]) -> Answer
    requires { Supported g }
    ensures { Answers out.old out.new result (load_answer g counter (length out.old) loaded.now existing.now) (flat (load_tree g loaded.now existing.now) counter) }
{
    let v = context::check_context(existing)?;
    let n = context::check_after(v, loaded)?;
    load_after(out, g, counter, loaded, v as u64, n as u64)
}
