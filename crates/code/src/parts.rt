// What the operations are made of, from code.rs: moves, an operation on a register or a spill, a division.
ghost use Rattle.std.specs.Prelude.{◌≡◌, ◌+◌, ◌≤◌, ◌<◌, ◌^◌};
ghost use Rattle.emit.specs.Emitted.{Emits};
ghost use Rattle.layout.specs.Config.{Supported, operands};
ghost use Rattle.code.specs.Code.{by_number, move_from, move_to, to_register, to_spill, into_register, through_temp, divide_by, divide_kept, restored};

use emit::cursor::{Cursor, Row};
use layout::config::{RETURN1, RETURN2, STACK, Shape, TEMP};
use records::number::{ADD, CQO, IDIV, IDIVM, IMUL, MOV, MOVL, MOVS, SUB};

pub fn move_from_register(out: &mut [u8], p: Cursor, g: Shape, w: u64, r: u8) -> Cursor
    requires { (p.at + 24 < 2 ^ 64) × (w < operands g) × Supported g }
    ensures { Emits out.old p out.new result (move_from g w r) }
{
    if w < 16 {
        emit::cursor::emit(out, p, Row(MOV, w as u8, r, 0, 0, 0))
    } else {
        let offset = layout::offset::spill_offset(g, w);
        emit::cursor::emit(out, p, Row(MOVS, r, STACK, 0, offset, 0))
    }
}

pub fn move_to_register(out: &mut [u8], p: Cursor, g: Shape, r: u8, w: u64) -> Cursor
    requires { (p.at + 24 < 2 ^ 64) × (w < operands g) × Supported g }
    ensures { Emits out.old p out.new result (move_to g r w) }
{
    if w < 16 {
        emit::cursor::emit(out, p, Row(MOV, r, w as u8, 0, 0, 0))
    } else {
        let offset = layout::offset::spill_offset(g, w);
        emit::cursor::emit(out, p, Row(MOVL, r, STACK, 0, offset, 0))
    }
}

// The number of an operation's code on two registers. The form with a spill as source is one more, that with a spill as target two. Kept by number, 0 add, 1 sub,
// any other mul: `to_register`, `to_spill`, `into_register` and `through_temp` take any, and so do the functions of these names.
fn code_number(n: u8) -> u8
    ensures { (result ≡ by_number n 1 6 10) × (result < 16) }
{
    if n == 0 {
        return ADD;
    }
    if n == 1 {
        return SUB;
    }
    IMUL
}

pub fn op_to_register(out: &mut [u8], p: Cursor, g: Shape, n: u8, r: u8, w: u64) -> Cursor
    requires { (p.at + 24 < 2 ^ 64) × (w < operands g) × Supported g }
    ensures { Emits out.old p out.new result (to_register g n r w) }
{
    let code = code_number(n);
    if w < 16 {
        emit::cursor::emit(out, p, Row(code, r, w as u8, 0, 0, 0))
    } else {
        let offset = layout::offset::spill_offset(g, w);
        emit::cursor::emit(out, p, Row(code + 1, r, STACK, 0, offset, 0))
    }
}

pub fn op_to_spill(out: &mut [u8], p: Cursor, g: Shape, n: u8, w: u64, x: u64) -> Cursor
    requires { (p.at + 48 < 2 ^ 64) × ((16 ≤ w) × (w < operands g) × (x < operands g)) × Supported g }
    ensures { Emits out.old p out.new result (to_spill g n w x) }
{
    let code = code_number(n);
    let offset = layout::offset::spill_offset(g, w);
    if x < 16 {
        emit::cursor::emit(out, p, Row(code + 2, STACK, x as u8, 0, offset, 0))
    } else {
        let source = layout::offset::spill_offset(g, x);
        let q = emit::cursor::emit(out, p, Row(MOVL, TEMP, STACK, 0, source, 0));
        emit::cursor::emit(out, q, Row(code + 2, STACK, TEMP, 0, offset, 0))
    }
}

// The operation on two sources, with its result in a register that is not the second.
pub fn into_register(out: &mut [u8], p: Cursor, g: Shape, n: u8, r: u8, x: u64, y: u64) -> Cursor
    requires { (p.at + 48 < 2 ^ 64) × (x < operands g) × (y < operands g) × Supported g }
    ensures { Emits out.old p out.new result (into_register g n r x y) }
{
    let q = move_to_register(out, p, g, r, x);
    op_to_register(out, q, g, n, r, y)
}

// The same for every target.
pub fn through_temp(out: &mut [u8], p: Cursor, g: Shape, n: u8, w: u64, x: u64, y: u64) -> Cursor
    requires { (p.at + 72 < 2 ^ 64) × (w < operands g) × (x < operands g) × (y < operands g) × Supported g }
    ensures { Emits out.old p out.new result (through_temp g n w x y) }
{
    let q = into_register(out, p, g, n, TEMP, x, y);
    move_from_register(out, q, g, w, TEMP)
}

// A division of RETURN1. RETURN2 is overwritten; as a divisor it is in TEMP.
fn divide(out: &mut [u8], p: Cursor, g: Shape, w: u64) -> Cursor
    requires { (p.at + 48 < 2 ^ 64) × (w < operands g) × Supported g }
    ensures { Emits out.old p out.new result (divide_by g w) }
{
    if w < 16 {
        if w == (RETURN2 as u64) {
            return emit::cursor::emit2(
                out,
                p,
                Row(CQO, 0, 0, 0, 0, 0),
                Row(IDIV, TEMP, 0, 0, 0, 0),
            );
        }
        return emit::cursor::emit2(
            out,
            p,
            Row(CQO, 0, 0, 0, 0, 0),
            Row(IDIV, w as u8, 0, 0, 0, 0),
        );
    }
    let offset = layout::offset::spill_offset(g, w);
    emit::cursor::emit2(
        out,
        p,
        Row(CQO, 0, 0, 0, 0, 0),
        Row(IDIVM, STACK, 0, 0, offset, 0),
    )
}

// RETURN2 kept in TEMP and RETURN1 in the target, the dividend to RETURN1, and the division.
pub fn divide_kept(out: &mut [u8], p: Cursor, g: Shape, w: u64, x: u64, y: u64) -> Cursor
    requires { (p.at + 120 < 2 ^ 64) × (w < operands g) × (x < operands g) × (y < operands g) × Supported g }
    ensures { Emits out.old p out.new result (divide_kept g w x y) }
{
    let q1 = emit::cursor::emit(out, p, Row(MOV, TEMP, RETURN2, 0, 0, 0));
    let q2 = move_from_register(out, q1, g, w, RETURN1);
    let q3 = move_to_register(out, q2, g, RETURN1, x);
    divide(out, q3, g, y)
}

// RETURN1 back from the target, the result from RETURN2 to the target, RETURN2 back from TEMP.
pub fn restore(out: &mut [u8], p: Cursor, g: Shape, w: u64) -> Cursor
    requires { (p.at + 72 < 2 ^ 64) × (w < operands g) × Supported g }
    ensures { Emits out.old p out.new result (restored g w) }
{
    let q1 = move_to_register(out, p, g, RETURN1, w);
    let q2 = move_from_register(out, q1, g, w, RETURN2);
    emit::cursor::emit(out, q2, Row(MOV, RETURN2, TEMP, 0, 0, 0))
}
