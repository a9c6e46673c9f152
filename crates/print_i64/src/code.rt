// print_i64, from code.rs: the answer and its records in a lent output. It draws no labels: it takes no counter, and the answer's is 0.
ghost use Rattle.std.specs.Prelude.{◌≡◌, ◌+◌, ◌*◌, ◌≤◌, ◌<◌, ◌^◌, length, Ok};
ghost use Rattle.records.specs.Contexts.{checked_context, ext_at};
ghost use Rattle.trees.specs.Tree.{size, flat};
ghost use Rattle.emit.specs.Answers.{granted, Answers};
ghost use Rattle.emit.specs.Emitted.{Emits};
ghost use Rattle.layout.specs.Config.{Supported, operands};
ghost use Rattle.print_i64.specs.Print.{source_to_temp, print_name, call_print, print_i64, print_answer, print_records, Prints};

use crate::{registers, save};
use emit::answer::{Answer, Refusal, Written};
use emit::cursor::{Cursor, Row};
use layout::config::{STACK, Shape, TEMP};
use records::name::{PRINT_I64, PRINTLN_I64};
use records::number::{CALL, MOV, MOVL};

// The register of a call's first argument.
const ARG_0: u8 = 7;

// The most records of a print: with eight registers saved, and its source in a spill.
pub const MOST_RECORDS: u64 = 21;

// A source in a spill goes to TEMP before STACK is changed.
fn source_to_temp(out: &mut [u8], p: Cursor, g: Shape, w: u64) -> Cursor
    requires { (p.at + 24 < 2 ^ 64) × (w < operands g) × Supported g }
    ensures { Emits out.old p out.new result (source_to_temp g w) }
{
    if w < 16 {
        return p;
    }
    let offset = layout::offset::spill_offset(g, w);
    emit::cursor::emit(out, p, Row(MOVL, TEMP, STACK, 0, offset, 0))
}

fn print_name(newline: bool) -> u32
    ensures { result ≡ print_name newline }
{
    if newline { PRINTLN_I64 } else { PRINT_I64 }
}

fn call_print(out: &mut [u8], p: Cursor, newline: bool, w: u64) -> Cursor
    requires { p.at + 48 < 2 ^ 64 }
    ensures { Emits out.old p out.new result (call_print newline w) }
{
    let source = layout::utils::register_for(w);
    let name = print_name(newline);
    emit::cursor::emit2(
        out,
        p,
        Row(MOV, ARG_0, source, 0, 0, 0),
        Row(CALL, 0, 0, name, 0, 0),
    )
}

// The records for a source that is a register or a spill of the frame, in a context of n variables.
pub fn emit_print_i64(
    out: &mut [u8],
    p: Cursor,
    g: Shape,
    newline: bool,
    w: u64,
    context: &[u8],
    n: usize,
) -> Cursor
    requires { (p.at + 1272 < 2 ^ 64) × (w < operands g) × (8 * n ≤ length context.now) × (n ≤ 4096) × Supported g }
    ensures { Emits out.old p out.new result (print_i64 g newline w (ext_at context.now) n) }
{
    let set = registers::registers_to_save(context, n);
    let first = registers::first_backup_register(n);
    let used = registers::backup_registers_used(n, u16::count_ones(set) as u64);
    let q1 = source_to_temp(out, p, g, w);
    let q2 = save::save_caller_save_registers(out, q1, set, first, used);
    let q3 = call_print(out, q2, newline, w);
    save::restore_caller_save_registers(out, q3, set, first, used)
}

fn print_checked(
    out: &mut [u8],
    g: Shape,
    newline: bool,
    w: u64,
    context: &[u8],
    n: usize,
) -> Answer
    requires { (8 * n ≤ length context.now) × (n ≤ 4096) × Supported g }
    ensures { Answers out.old out.new result (print_answer g (length out.old) newline w context.now (Ok n)) (print_records g newline w context.now (Ok n)) }
{
    if !layout::utils::operand_ok(g, w) {
        return Err(Refusal::Operand);
    }
    if emit::answer::ample(0, out.len(), 0, MOST_RECORDS) {
        let q = emit_print_i64(out, Cursor { at: 0, counter: 0 }, g, newline, w, context, n);
        return Ok(Written::up_to(q));
    }
    print_sized(out, g, newline, w, context, n)
}

// A first pass on another output tells the size, and the second writes.
fn print_sized(out: &mut [u8], g: Shape, newline: bool, w: u64, context: &[u8], n: usize) -> Answer
    requires { (w < operands g) × (8 * n ≤ length context.now) × (n ≤ 4096) × Supported g }
    ensures { Answers out.old out.new result (granted 0 (length out.old) (24 * size (print_i64 g newline w (ext_at context.now) n)) 0) (flat (print_i64 g newline w (ext_at context.now) n) 0) }
{
    let mut none = [0u8; 1];
    let need = emit_print_i64(
        &mut none,
        Cursor { at: 0, counter: 0 },
        g,
        newline,
        w,
        context,
        n,
    );
    let written = emit::answer::grant(0, out.len(), need)?;
    emit_print_i64(out, Cursor { at: 0, counter: 0 }, g, newline, w, context, n);
    Ok(written)
}

// Prints the integer in the source operand, with a newline if asked. The context's variables are kept.
pub fn print_i64(out: &mut [u8], frame: u64, newline: bool, source: u64, context: &[u8]) -> Answer
    ensures { Prints frame out.old out.new result newline source context.now }
{
    let Some(g) = layout::config::frame_of(frame) else {
        return emit::answer::unframed(context);
    };
    print_i64_in(out, g, newline, source, context)
}

fn print_i64_in(out: &mut [u8], g: Shape, newline: bool, source: u64, context: &[u8]) -> Answer
    requires { Supported g }
    ensures { Answers out.old out.new result (print_answer g (length out.old) newline source context.now (checked_context context.now)) (print_records g newline source context.now (checked_context context.now)) }
{
    let n = records::context::check_context(context)?;
    print_checked(out, g, newline, source, context, n)
}
