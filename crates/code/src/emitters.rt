// Each operation's records written from a cursor on, for operands that are registers or spills of the frame.
ghost use Rattle.std.specs.Prelude.{◌≡◌, [], ◌∷◌, ◌+◌, ◌<◌, ◌^◌};
ghost use Rattle.emit.specs.Emitted.{fields_list, Emitted, Emits};
ghost use Rattle.layout.specs.Config.{Supported, operands};
ghost use Rattle.code.specs.Code.{compare_words, compare_immediate, load_immediate, load_label, mov_tree, commutative, subtraction, div_tree, rem_tree, arithmetic, jump_to, add_and_jump, condition_number, jump_if, jump_if_words, jump_if_zero};

use crate::parts;
use emit::cursor::{Cursor, Row};
use layout::config::{RETURN1, RETURN2, STACK, Shape, TEMP};
use records::number::{
    ADDI, CMP, CMPI, CMPIM, CMPMR, CMPRM, JEL, JGEL, JGL, JLEL, JLL, JMP, JNEL, LEAL, MOV, MOVI,
    MOVIM, MOVL, MOVS,
};
use records::order::Calculation;

// The most records of an operation: a division's.
pub const MOST_RECORDS: u64 = 9;

pub fn emit_load_immediate(out: &mut [u8], p: Cursor, g: Shape, w: u64, value: u64) -> Cursor
    requires { (p.at + 24 < 2 ^ 64) × (w < operands g) × Supported g }
    ensures { Emits out.old p out.new result (load_immediate g w value) }
{
    if w < 16 {
        emit::cursor::emit(out, p, Row(MOVI, w as u8, 0, 0, 0, value))
    } else {
        let offset = layout::offset::spill_offset(g, w);
        emit::cursor::emit(out, p, Row(MOVIM, STACK, 0, 0, offset, value))
    }
}

pub fn emit_load_label(out: &mut [u8], p: Cursor, g: Shape, w: u64, label: u32) -> Cursor
    requires { (p.at + 48 < 2 ^ 64) × (w < operands g) × Supported g }
    ensures { Emits out.old p out.new result (load_label g w label) }
{
    if w < 16 {
        emit::cursor::emit(out, p, Row(LEAL, w as u8, 0, label, 0, 0))
    } else {
        let offset = layout::offset::spill_offset(g, w);
        emit::cursor::emit2(
            out,
            p,
            Row(LEAL, TEMP, 0, label, 0, 0),
            Row(MOVS, TEMP, STACK, 0, offset, 0),
        )
    }
}

pub fn emit_mov(out: &mut [u8], p: Cursor, g: Shape, w: u64, x: u64) -> Cursor
    requires { (p.at + 48 < 2 ^ 64) × (w < operands g) × (x < operands g) × Supported g }
    ensures { Emits out.old p out.new result (mov_tree g w x) }
{
    if x < 16 {
        return parts::move_from_register(out, p, g, w, x as u8);
    }
    if w < 16 {
        return parts::move_to_register(out, p, g, w as u8, x);
    }
    let q = parts::move_to_register(out, p, g, TEMP, x);
    parts::move_from_register(out, q, g, w, TEMP)
}

// An add (n is 0) or a mul (2). Where a source is the target, the other is added to it.
fn emit_commutative(out: &mut [u8], p: Cursor, g: Shape, n: u8, w: u64, x: u64, y: u64) -> Cursor
    requires { (p.at + 72 < 2 ^ 64) × (w < operands g) × (x < operands g) × (y < operands g) × Supported g }
    ensures { Emits out.old p out.new result (commutative g n w x y) }
{
    if w < 16 {
        let r = w as u8;
        if w == x {
            return parts::op_to_register(out, p, g, n, r, y);
        }
        if w == y {
            return parts::op_to_register(out, p, g, n, r, x);
        }
        return parts::into_register(out, p, g, n, r, x, y);
    }
    if w == x {
        return parts::op_to_spill(out, p, g, n, w, y);
    }
    if w == y {
        return parts::op_to_spill(out, p, g, n, w, x);
    }
    parts::through_temp(out, p, g, n, w, x, y)
}

// Kept beside `emit_commutative`: code.rs's `sub`, which goes by TEMP where its second source is the target.
fn emit_subtraction(out: &mut [u8], p: Cursor, g: Shape, w: u64, x: u64, y: u64) -> Cursor
    requires { (p.at + 72 < 2 ^ 64) × (w < operands g) × (x < operands g) × (y < operands g) × Supported g }
    ensures { Emits out.old p out.new result (subtraction g w x y) }
{
    if w < 16 {
        let r = w as u8;
        if w == x {
            return parts::op_to_register(out, p, g, 1, r, y);
        }
        if w == y {
            return parts::through_temp(out, p, g, 1, w, x, y);
        }
        return parts::into_register(out, p, g, 1, r, x, y);
    }
    if w == x {
        return parts::op_to_spill(out, p, g, 1, w, y);
    }
    parts::through_temp(out, p, g, 1, w, x, y)
}

fn emit_quotient(out: &mut [u8], p: Cursor, g: Shape, w: u64, x: u64, y: u64) -> Cursor
    requires { (p.at + 216 < 2 ^ 64) × (w < operands g) × (x < operands g) × (y < operands g) × Supported g }
    ensures { Emits out.old p out.new result (div_tree g w x y) }
{
    let q1 = parts::divide_kept(out, p, g, w, x, y);
    let q2 = emit::cursor::emit(out, q1, Row(MOV, RETURN2, RETURN1, 0, 0, 0));
    parts::restore(out, q2, g, w)
}

fn emit_remainder(out: &mut [u8], p: Cursor, g: Shape, w: u64, x: u64, y: u64) -> Cursor
    requires { (p.at + 192 < 2 ^ 64) × (w < operands g) × (x < operands g) × (y < operands g) × Supported g }
    ensures { Emits out.old p out.new result (rem_tree g w x y) }
{
    let q = parts::divide_kept(out, p, g, w, x, y);
    parts::restore(out, q, g, w)
}

// add, sub, mul, div or rem.
pub fn emit_arithmetic(
    out: &mut [u8],
    p: Cursor,
    g: Shape,
    operation: Calculation,
    w: u64,
    x: u64,
    y: u64,
) -> Cursor
    requires { (p.at + 216 < 2 ^ 64) × (w < operands g) × (x < operands g) × (y < operands g) × Supported g }
    ensures { Emits out.old p out.new result (arithmetic g operation w x y) }
{
    match operation {
        Calculation::Add => emit_commutative(out, p, g, 0, w, x, y),
        Calculation::Sub => emit_subtraction(out, p, g, w, x, y),
        Calculation::Mul => emit_commutative(out, p, g, 2, w, x, y),
        Calculation::Div => emit_quotient(out, p, g, w, x, y),
        Calculation::Rem => emit_remainder(out, p, g, w, x, y),
    }
}

pub fn emit_compare(out: &mut [u8], p: Cursor, g: Shape, x: u64, y: u64) -> Cursor
    requires { (p.at + 48 < 2 ^ 64) × (x < operands g) × (y < operands g) × Supported g }
    ensures { Emits out.old p out.new result (compare_words g x y) }
{
    if x < 16 {
        if y < 16 {
            return emit::cursor::emit(out, p, Row(CMP, x as u8, y as u8, 0, 0, 0));
        }
        let offset = layout::offset::spill_offset(g, y);
        return emit::cursor::emit(out, p, Row(CMPRM, x as u8, STACK, 0, offset, 0));
    }
    let first = layout::offset::spill_offset(g, x);
    if y < 16 {
        return emit::cursor::emit(out, p, Row(CMPMR, STACK, y as u8, 0, first, 0));
    }
    let second = layout::offset::spill_offset(g, y);
    emit::cursor::emit2(
        out,
        p,
        Row(MOVL, TEMP, STACK, 0, first, 0),
        Row(CMPRM, TEMP, STACK, 0, second, 0),
    )
}

pub fn emit_compare_immediate(out: &mut [u8], p: Cursor, g: Shape, w: u64, value: u64) -> Cursor
    requires { (p.at + 24 < 2 ^ 64) × (w < operands g) × Supported g }
    ensures { Emits out.old p out.new result (compare_immediate g w value) }
{
    if w < 16 {
        emit::cursor::emit(out, p, Row(CMPI, w as u8, 0, 0, 0, value))
    } else {
        let offset = layout::offset::spill_offset(g, w);
        emit::cursor::emit(out, p, Row(CMPIM, STACK, 0, 0, offset, value))
    }
}

pub fn emit_jump(out: &mut [u8], p: Cursor, g: Shape, w: u64) -> Cursor
    requires { (p.at + 48 < 2 ^ 64) × (w < operands g) × Supported g }
    ensures { Emitted out.old p out.new result (fields_list (jump_to g w)) 0 }
{
    if w < 16 {
        emit::cursor::emit(out, p, Row(JMP, w as u8, 0, 0, 0, 0))
    } else {
        let offset = layout::offset::spill_offset(g, w);
        emit::cursor::emit2(
            out,
            p,
            Row(MOVL, TEMP, STACK, 0, offset, 0),
            Row(JMP, TEMP, 0, 0, 0, 0),
        )
    }
}

pub fn emit_add_and_jump(out: &mut [u8], p: Cursor, g: Shape, w: u64, value: u64) -> Cursor
    requires { (p.at + 72 < 2 ^ 64) × (w < operands g) × Supported g }
    ensures { Emitted out.old p out.new result (fields_list (add_and_jump g w value)) 0 }
{
    if w < 16 {
        let r = w as u8;
        emit::cursor::emit2(
            out,
            p,
            Row(ADDI, r, 0, 0, 0, value),
            Row(JMP, r, 0, 0, 0, 0),
        )
    } else {
        let offset = layout::offset::spill_offset(g, w);
        emit::cursor::emit3(
            out,
            p,
            Row(MOVL, TEMP, STACK, 0, offset, 0),
            Row(ADDI, TEMP, 0, 0, 0, value),
            Row(JMP, TEMP, 0, 0, 0, 0),
        )
    }
}

#[derive(Clone, Copy)]
pub enum Condition {
    Equal,
    NotEqual,
    Less,
    LessOrEqual,
    Greater,
    GreaterOrEqual,
}

fn condition_number(condition: Condition) -> u8
    ensures { result ≡ condition_number condition }
{
    match condition {
        Condition::Equal => JEL,
        Condition::NotEqual => JNEL,
        Condition::Less => JLL,
        Condition::LessOrEqual => JLEL,
        Condition::Greater => JGL,
        Condition::GreaterOrEqual => JGEL,
    }
}

// The jump after a compare.
fn emit_jump_if(out: &mut [u8], p: Cursor, condition: Condition, label: u32) -> Cursor
    requires { p.at + 24 < 2 ^ 64 }
    ensures { Emitted out.old p out.new result (fields_list (jump_if condition label ∷ [])) 0 }
{
    let code = condition_number(condition);
    emit::cursor::emit(out, p, Row(code, 0, 0, label, 0, 0))
}

pub fn emit_jump_label_if(
    out: &mut [u8],
    p: Cursor,
    g: Shape,
    condition: Condition,
    x: u64,
    y: u64,
    label: u32,
) -> Cursor
    requires { (p.at + 72 < 2 ^ 64) × (x < operands g) × (y < operands g) × Supported g }
    ensures { Emitted out.old p out.new result (fields_list (jump_if_words g condition x y label)) 0 }
{
    let q = emit_compare(out, p, g, x, y);
    emit_jump_if(out, q, condition, label)
}

pub fn emit_jump_label_if_zero(
    out: &mut [u8],
    p: Cursor,
    g: Shape,
    condition: Condition,
    w: u64,
    label: u32,
) -> Cursor
    requires { (p.at + 48 < 2 ^ 64) × (w < operands g) × Supported g }
    ensures { Emitted out.old p out.new result (fields_list (jump_if_zero g condition w label)) 0 }
{
    let q = emit_compare_immediate(out, p, g, w, 0);
    emit_jump_if(out, q, condition, label)
}
