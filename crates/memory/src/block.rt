// One block, from memory.rs: erased, shared, acquired, released; a field stored and loaded.
ghost use Rattle.std.specs.Prelude.{◌+◌, ◌*◌, ◌<◌, ◌≤◌, ◌^◌, length};
ghost use Rattle.emit.specs.Emitted.{fields_list, Emitted, Emits};
ghost use Rattle.emit.specs.Answers.{Answers};
ghost use Rattle.layout.specs.Config.{Supported, operands};
ghost use Rattle.memory.specs.Answered.{tree_answer, erase_answer, erase_in, erase_records_in, share_answer, share_in, share_records_in};
ghost use Rattle.memory.specs.NextBlock.{next_begin, next_end};
ghost use Rattle.trees.specs.Tree.{flat};
ghost use Rattle.memory.specs.Blocks.{erase_register, share_register, erase_block, share_spill, share_block, erase_child, erase_fields, take_block, next_block, acquire_block, store_field, load_field, release_block};

use emit::answer::{Answer, Refusal, Written};
use emit::cursor::{Cursor, Row};
use layout::config::{FREE, HEAP, MINUS_ONE, STACK, Shape, TEMP};
use records::name::MOST_COUNT;
use records::number::{ADDI, ADDIM, CMPI, CMPIM, JEL, JMPL, LAB, MOV, MOVIM, MOVL, MOVS};

// The labels that erasing and sharing a block draw, and their most records: of one in a spill.
pub const ERASE_LABELS: u64 = 3;

pub const ERASE_RECORDS: u64 = 12;

pub const SHARE_LABELS: u64 = 1;

pub const SHARE_RECORDS: u64 = 5;

pub fn erase_register(out: &mut [u8], p: Cursor, r: u8) -> Cursor
    requires { (p.at + 264 < 2 ^ 64) × (p.counter + 3 < 2 ^ 32) }
    ensures { Emits out.old p out.new result (erase_register r) }
{
    let l1 = (p.counter + 1) as u32;
    let l2 = (p.counter + 2) as u32;
    let l3 = (p.counter + 3) as u32;
    let q = emit::cursor::emit4(
        out,
        p,
        Row(CMPI, r, 0, 0, 0, 0),
        Row(JEL, 0, 0, l3, 0, 0),
        Row(CMPIM, r, 0, 0, 0, 0),
        Row(JEL, 0, 0, l1, 0, 0),
    );
    let s = emit::cursor::emit4(
        out,
        q,
        Row(ADDIM, r, 0, 0, 0, MINUS_ONE),
        Row(JMPL, 0, 0, l2, 0, 0),
        Row(LAB, 0, 0, l1, 0, 0),
        Row(MOVS, FREE, r, 0, 0, 0),
    );
    let t = emit::cursor::emit3(
        out,
        s,
        Row(MOV, FREE, r, 0, 0, 0),
        Row(LAB, 0, 0, l2, 0, 0),
        Row(LAB, 0, 0, l3, 0, 0),
    );
    emit::cursor::draw(t, 3)
}

pub fn erase(out: &mut [u8], p: Cursor, g: Shape, w: u64) -> Cursor
    requires { (p.at + 288 < 2 ^ 64) × (p.counter + 3 < 2 ^ 32) × (w < operands g) × Supported g }
    ensures { Emits out.old p out.new result (erase_block g w) }
{
    if w < 16 {
        erase_register(out, p, w as u8)
    } else {
        let offset = layout::offset::spill_offset(g, w);
        let q = emit::cursor::emit(out, p, Row(MOVL, TEMP, STACK, 0, offset, 0));
        erase_register(out, q, TEMP)
    }
}

pub fn share_register(out: &mut [u8], p: Cursor, r: u8, n: u64) -> Cursor
    requires { (p.at + 96 < 2 ^ 64) × (p.counter + 1 < 2 ^ 32) }
    ensures { Emits out.old p out.new result (share_register r n) }
{
    let l = (p.counter + 1) as u32;
    let q = emit::cursor::emit4(
        out,
        p,
        Row(CMPI, r, 0, 0, 0, 0),
        Row(JEL, 0, 0, l, 0, 0),
        Row(ADDIM, r, 0, 0, 0, n),
        Row(LAB, 0, 0, l, 0, 0),
    );
    emit::cursor::draw(q, 1)
}

fn share_spill(out: &mut [u8], p: Cursor, g: Shape, w: u64, n: u64) -> Cursor
    requires { (p.at + 120 < 2 ^ 64) × (p.counter + 1 < 2 ^ 32) × (16 ≤ w) × (w < operands g) × Supported g }
    ensures { Emits out.old p out.new result (share_spill g w n) }
{
    let l = (p.counter + 1) as u32;
    let offset = layout::offset::spill_offset(g, w);
    let q = emit::cursor::emit4(
        out,
        p,
        Row(CMPIM, STACK, 0, 0, offset, 0),
        Row(JEL, 0, 0, l, 0, 0),
        Row(MOVL, TEMP, STACK, 0, offset, 0),
        Row(ADDIM, TEMP, 0, 0, 0, n),
    );
    let s = emit::cursor::emit(out, q, Row(LAB, 0, 0, l, 0, 0));
    emit::cursor::draw(s, 1)
}

pub fn share(out: &mut [u8], p: Cursor, g: Shape, w: u64, n: u64) -> Cursor
    requires { (p.at + 120 < 2 ^ 64) × (p.counter + 1 < 2 ^ 32) × (w < operands g) × Supported g }
    ensures { Emits out.old p out.new result (share_block g w n) }
{
    if w < 16 {
        share_register(out, p, w as u8, n)
    } else {
        share_spill(out, p, g, w, n)
    }
}

fn erase_child(out: &mut [u8], p: Cursor, i: u64) -> Cursor
    requires { (p.at + 288 < 2 ^ 64) × (p.counter + 3 < 2 ^ 32) × (i < 65536) }
    ensures { Emits out.old p out.new result (erase_child i) }
{
    let offset = layout::offset::fst_offset(i);
    let q = emit::cursor::emit(out, p, Row(MOVL, TEMP, HEAP, 0, offset, 0));
    erase_register(out, q, TEMP)
}

fn erase_fields(out: &mut [u8], p: Cursor, n: u64) -> Cursor
    requires { (n ≤ 65536) × (p.at + 288 * n < 2 ^ 64) × (p.counter + 3 * n < 2 ^ 32) }
    ensures { Emits out.old p out.new result (erase_fields n) }
{
    let mut q = p;
    for i in 0..n {
        q = erase_child(out, q, i);
    }
    q
}

// HEAP's block goes into w.
fn take_block(out: &mut [u8], p: Cursor, g: Shape, w: u64) -> Cursor
    requires { (p.at + 48 < 2 ^ 64) × (w < operands g) × Supported g }
    ensures { Emits out.old p out.new result (take_block g w) }
{
    if w < 16 {
        emit::cursor::emit(out, p, Row(MOV, w as u8, HEAP, 0, 0, 0))
    } else {
        let offset = layout::offset::spill_offset(g, w);
        emit::cursor::emit2(
            out,
            p,
            Row(MOV, TEMP, HEAP, 0, 0, 0),
            Row(MOVS, HEAP, STACK, 0, offset, 0),
        )
    }
}

// The records of `next_block` before the children are erased; n is three labels for each.
fn next_begin(out: &mut [u8], p: Cursor, n: u64, r: u8) -> Cursor
    requires { (p.at + 264 < 2 ^ 64) × (p.counter + n + 4 < 2 ^ 32) }
    ensures { Emitted out.old p out.new result (fields_list (next_begin n r p.counter)) 0 }
{
    let frontier = (p.counter + (n + 1)) as u32;
    let lazy = (p.counter + (n + 3)) as u32;
    let done = (p.counter + (n + 4)) as u32;
    let q = emit::cursor::emit4(
        out,
        p,
        Row(MOVL, HEAP, HEAP, 0, 0, 0),
        Row(CMPI, HEAP, 0, 0, 0, 0),
        Row(JEL, 0, 0, lazy, 0, 0),
        Row(MOVIM, r, 0, 0, 0, 0),
    );
    let s = emit::cursor::emit4(
        out,
        q,
        Row(JMPL, 0, 0, done, 0, 0),
        Row(LAB, 0, 0, lazy, 0, 0),
        Row(MOV, HEAP, FREE, 0, 0, 0),
        Row(MOVL, FREE, FREE, 0, 0, 0),
    );
    emit::cursor::emit3(
        out,
        s,
        Row(CMPI, FREE, 0, 0, 0, 0),
        Row(JEL, 0, 0, frontier, 0, 0),
        Row(MOVIM, HEAP, 0, 0, 0, 0),
    )
}

// The records of `next_block` after them; l is the counter before all, and bytes a block's.
fn next_end(out: &mut [u8], p: Cursor, n: u64, l: u64, bytes: u64) -> Cursor
    requires { (p.at + 144 < 2 ^ 64) × (l + n + 4 < 2 ^ 32) × (p.counter + 4 < 2 ^ 64) }
    ensures { Emitted out.old p out.new result (fields_list (next_end n bytes l)) 4 }
{
    let frontier = (l + (n + 1)) as u32;
    let joined = (l + (n + 2)) as u32;
    let done = (l + (n + 4)) as u32;
    let q = emit::cursor::emit3(
        out,
        p,
        Row(JMPL, 0, 0, joined, 0, 0),
        Row(LAB, 0, 0, frontier, 0, 0),
        Row(MOV, FREE, HEAP, 0, 0, 0),
    );
    let s = emit::cursor::emit3(
        out,
        q,
        Row(ADDI, FREE, 0, 0, 0, bytes),
        Row(LAB, 0, 0, joined, 0, 0),
        Row(LAB, 0, 0, done, 0, 0),
    );
    emit::cursor::draw(s, 4)
}

// HEAP goes on to the next block; r holds the one just taken.
fn next_block(out: &mut [u8], p: Cursor, g: Shape, r: u8) -> Cursor
    requires { (p.at + 2424 < 2 ^ 64) × (p.counter + 25 < 2 ^ 32) × Supported g }
    ensures { Emits out.old p out.new result (next_block g r) }
{
    let fields = g.fields;
    let bytes = layout::offset::fst_offset(fields);
    let l = p.counter;
    let q = next_begin(out, p, 3 * fields, r);
    let s = erase_fields(out, q, fields);
    next_end(out, s, 3 * fields, l, bytes)
}

pub fn acquire_block(out: &mut [u8], p: Cursor, g: Shape, w: u64) -> Cursor
    requires { (p.at + 2472 < 2 ^ 64) × (p.counter + 25 < 2 ^ 32) × (w < operands g) × Supported g }
    ensures { Emits out.old p out.new result (acquire_block g w) }
{
    let q = take_block(out, p, g, w);
    if w < 16 {
        next_block(out, q, g, w as u8)
    } else {
        next_block(out, q, g, TEMP)
    }
}

// A word from an operand into memory.
pub fn store_field(out: &mut [u8], p: Cursor, g: Shape, w: u64, r: u8, offset: u64) -> Cursor
    requires { (p.at + 48 < 2 ^ 64) × (w < operands g) × Supported g }
    ensures { Emits out.old p out.new result (store_field g w r offset) }
{
    if w < 16 {
        emit::cursor::emit(out, p, Row(MOVS, w as u8, r, 0, offset, 0))
    } else {
        let from = layout::offset::spill_offset(g, w);
        emit::cursor::emit2(
            out,
            p,
            Row(MOVL, TEMP, STACK, 0, from, 0),
            Row(MOVS, TEMP, r, 0, offset, 0),
        )
    }
}

// And back.
pub fn load_field(out: &mut [u8], p: Cursor, g: Shape, w: u64, r: u8, offset: u64) -> Cursor
    requires { (p.at + 48 < 2 ^ 64) × (w < operands g) × Supported g }
    ensures { Emits out.old p out.new result (load_field g w r offset) }
{
    if w < 16 {
        emit::cursor::emit(out, p, Row(MOVL, w as u8, r, 0, offset, 0))
    } else {
        let to = layout::offset::spill_offset(g, w);
        emit::cursor::emit2(
            out,
            p,
            Row(MOVL, TEMP, r, 0, offset, 0),
            Row(MOVS, TEMP, STACK, 0, to, 0),
        )
    }
}

// The block goes to the front of the linear list.
pub fn release_block(out: &mut [u8], p: Cursor, r: u8) -> Cursor
    requires { p.at + 48 < 2 ^ 64 }
    ensures { Emits out.old p out.new result (release_block r) }
{
    emit::cursor::emit2(
        out,
        p,
        Row(MOVS, HEAP, r, 0, 0, 0),
        Row(MOV, HEAP, r, 0, 0, 0),
    )
}

// Erases the object that an operand points to.
pub fn erase_block(out: &mut [u8], frame: u64, counter: u64, w: u64) -> Answer
    ensures { Answers out.old out.new result (erase_in frame counter (length out.old) w) (erase_records_in frame counter w) }
{
    let g = layout::config::frame_of(frame).ok_or(Refusal::Operand)?;
    erase_block_in(out, g, counter, w)
}

fn erase_block_in(out: &mut [u8], g: Shape, counter: u64, w: u64) -> Answer
    requires { Supported g }
    ensures { Answers out.old out.new result (erase_answer g counter (length out.old) w) (flat (erase_block g w) counter) }
{
    if !layout::utils::operand_ok(g, w) {
        return Err(Refusal::Operand);
    }
    if emit::answer::ample(counter, out.len(), ERASE_LABELS, ERASE_RECORDS) {
        let q = erase(out, Cursor { at: 0, counter }, g, w);
        return Ok(Written::up_to(q));
    }
    erase_sized(out, g, counter, w)
}

// A first pass on another output tells the size, and the second writes.
fn erase_sized(out: &mut [u8], g: Shape, counter: u64, w: u64) -> Answer
    requires { (w < operands g) × Supported g }
    ensures { Answers out.old out.new result (tree_answer counter (length out.old) (erase_block g w)) (flat (erase_block g w) counter) }
{
    let mut none = [0u8; 1];
    let need = erase(&mut none, Cursor { at: 0, counter: 0 }, g, w);
    let written = emit::answer::grant(counter, out.len(), need)?;
    erase(out, Cursor { at: 0, counter }, g, w);
    Ok(written)
}

// n references more to the object that an operand points to.
pub fn share_block_n(out: &mut [u8], frame: u64, counter: u64, w: u64, n: u64) -> Answer
    ensures { Answers out.old out.new result (share_in frame counter (length out.old) w n) (share_records_in frame counter w n) }
{
    let g = layout::config::frame_of(frame).ok_or(Refusal::Operand)?;
    share_block_n_in(out, g, counter, w, n)
}

fn share_block_n_in(out: &mut [u8], g: Shape, counter: u64, w: u64, n: u64) -> Answer
    requires { Supported g }
    ensures { Answers out.old out.new result (share_answer g counter (length out.old) w n) (flat (share_block g w n) counter) }
{
    if !layout::utils::operand_ok(g, w) {
        return Err(Refusal::Operand);
    }
    if MOST_COUNT < n {
        return Err(Refusal::Count);
    }
    if emit::answer::ample(counter, out.len(), SHARE_LABELS, SHARE_RECORDS) {
        let q = share(out, Cursor { at: 0, counter }, g, w, n);
        return Ok(Written::up_to(q));
    }
    share_sized(out, g, counter, w, n)
}

// The same in two passes.
fn share_sized(out: &mut [u8], g: Shape, counter: u64, w: u64, n: u64) -> Answer
    requires { (w < operands g) × Supported g }
    ensures { Answers out.old out.new result (tree_answer counter (length out.old) (share_block g w n)) (flat (share_block g w n) counter) }
{
    let mut none = [0u8; 1];
    let need = share(&mut none, Cursor { at: 0, counter: 0 }, g, w, n);
    let written = emit::answer::grant(counter, out.len(), need)?;
    share(out, Cursor { at: 0, counter }, g, w, n);
    Ok(written)
}
