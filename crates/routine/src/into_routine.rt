// A whole routine: control directives and entry point, setup, the body as it is given, cleanup.
ghost use Rattle.std.specs.Prelude.{◌≡◌, false, ◌+◌, ◌*◌, ◌≤◌, ◌<◌, ◌^◌, length, Err};
ghost use Rattle.std.proofs.lemmas.List.Edits.{sets};
ghost use Rattle.records.specs.Instructions.{checked_codes};
ghost use Rattle.records.specs.Checked.{on_checked};
ghost use Rattle.emit.specs.Emitted.{fields_list, Emitted};
ghost use Rattle.emit.specs.Answers.{accepted};
ghost use Rattle.emit.specs.declared.answer.Refusal.TheVariants.{Operand, Body};
ghost use Rattle.layout.specs.Config.{Supported};
ghost use Rattle.routine.specs.Routine.{argument, preamble, setup, move_arguments, head, cleanup, routine_bytes, accepting, routine_answer, routine_in, routine_bytes_in, Assembles};

use emit::answer::{Answer, Refusal};
use emit::cursor::{Cursor, Row};
use layout::config::{FREE, HEAP, STACK, Shape, Unshaped};
use records::name::{ASM_MAIN, CLEANUP, PRINT_I64, PRINTLN_I64};
use records::number::{ADDI, EXTERN, GLOBAL, LAB, MOV, NOEXECSTACK, POP, PUSH, RET, SUBI, TEXT};

// The most records of a body.
const MOST: usize = 65506;

// The register that each argument is passed in, by the calling convention.
const ARGUMENTS: [u8; 6] = [7, 6, 5, 1, 8, 9];

fn arg(number: usize) -> u8
    requires { number < 6 }
    ensures { result ≡ argument number }
{
    ARGUMENTS[number]
}

fn emit_preamble(out: &mut [u8], p: Cursor) -> Cursor
    requires { p.at + 144 < 2 ^ 64 }
    ensures { Emitted out.old p out.new result (fields_list preamble) 0 }
{
    let q = emit::cursor::emit4(
        out,
        p,
        Row(NOEXECSTACK, 0, 0, 0, 0, 0),
        Row(TEXT, 0, 0, 0, 0, 0),
        Row(EXTERN, 0, 0, PRINT_I64, 0, 0),
        Row(EXTERN, 0, 0, PRINTLN_I64, 0, 0),
    );
    emit::cursor::emit2(
        out,
        q,
        Row(GLOBAL, 0, 0, ASM_MAIN, 0, 0),
        Row(LAB, 0, 0, ASM_MAIN, 0, 0),
    )
}

fn emit_setup(out: &mut [u8], p: Cursor, g: Shape) -> Cursor
    requires { (p.at + 240 < 2 ^ 64) × Supported g }
    ensures { Emitted out.old p out.new result (fields_list (setup g)) 0 }
{
    let space = 8 * g.spills;
    let block = layout::offset::fst_offset(g.fields);
    let q = emit::cursor::emit4(
        out,
        p,
        Row(PUSH, 2, 0, 0, 0, 0),
        Row(PUSH, 3, 0, 0, 0, 0),
        Row(PUSH, 12, 0, 0, 0, 0),
        Row(PUSH, 13, 0, 0, 0, 0),
    );
    let s = emit::cursor::emit3(
        out,
        q,
        Row(PUSH, 14, 0, 0, 0, 0),
        Row(PUSH, 15, 0, 0, 0, 0),
        Row(SUBI, STACK, 0, 0, 0, space),
    );
    emit::cursor::emit3(
        out,
        s,
        Row(MOV, HEAP, 7, 0, 0, 0),
        Row(MOV, FREE, HEAP, 0, 0, 0),
        Row(ADDI, FREE, 0, 0, 0, block),
    )
}

// The last argument first.
fn move_arguments(out: &mut [u8], p: Cursor, n: usize) -> Cursor
    requires { (p.at + 120 < 2 ^ 64) × (n < 6) }
    ensures { Emitted out.old p out.new result (fields_list (move_arguments n)) 0 }
{
    let mut q = p;
    for i in (1..n + 1).rev() {
        let to = (2 * i + 3) as u8;
        q = emit::cursor::emit(out, q, Row(MOV, to, arg(i), 0, 0, 0));
    }
    q
}

fn emit_head(out: &mut [u8], p: Cursor, g: Shape, n: usize) -> Cursor
    requires { (p.at + 504 < 2 ^ 64) × (n < 6) × Supported g }
    ensures { Emitted out.old p out.new result (fields_list (head g n)) 0 }
{
    let q = emit_preamble(out, p);
    let s = emit_setup(out, q, g);
    move_arguments(out, s, n)
}

fn emit_cleanup(out: &mut [u8], p: Cursor, g: Shape) -> Cursor
    requires { (p.at + 216 < 2 ^ 64) × Supported g }
    ensures { Emitted out.old p out.new result (fields_list (cleanup g)) 0 }
{
    let space = 8 * g.spills;
    let q = emit::cursor::emit4(
        out,
        p,
        Row(LAB, 0, 0, CLEANUP, 0, 0),
        Row(ADDI, STACK, 0, 0, 0, space),
        Row(POP, 15, 0, 0, 0, 0),
        Row(POP, 14, 0, 0, 0, 0),
    );
    let s = emit::cursor::emit4(
        out,
        q,
        Row(POP, 13, 0, 0, 0, 0),
        Row(POP, 12, 0, 0, 0, 0),
        Row(POP, 3, 0, 0, 0, 0),
        Row(POP, 2, 0, 0, 0, 0),
    );
    emit::cursor::emit(out, s, Row(RET, 0, 0, 0, 0, 0))
}

// The routine from the output's start on.
fn assemble(out: &mut [u8], g: Shape, body: &[u8], n: usize)
    requires { (n < 6) × (length body.now < 2 ^ 32) × (24 * (25 + n) + length body.now ≤ length out.old) × Supported g }
    ensures { out.new ≡ sets out.old 0 (routine_bytes g n body.now) }
{
    let q = emit_head(out, Cursor { at: 0, counter: 0 }, g, n);
    records::bytes::copy_bytes(out, q.at, body, body.len());
    let end = q.at + body.len();
    emit_cleanup(
        out,
        Cursor {
            at: end,
            counter: 0,
        },
        g,
    );
}

fn assemble_checked(out: &mut [u8], g: Shape, body: &[u8], n: usize) -> Answer
    requires { (length body.now < 2 ^ 32) × Supported g }
    ensures { Assembles out.old out.new result (accepting g (length out.old) n body.now) (routine_bytes g n body.now) }
{
    if 5 < n {
        return Err(Refusal::Arguments);
    }
    let size = 24 * (25 + n) + body.len();
    let written = emit::answer::grant(
        0,
        out.len(),
        Cursor {
            at: size,
            counter: 0,
        },
    )?;
    assemble(out, g, body, n);
    Ok(written)
}

fn routine_in(out: &mut [u8], g: Shape, body: &[u8], arguments: usize) -> Answer
    requires { Supported g }
    ensures { Assembles out.old out.new result (routine_answer g (length out.old) arguments body.now) (routine_bytes g arguments body.now) }
{
    records::code::check_codes(body, MOST)?;
    assemble_checked(out, g, body, arguments)
}

// What a frame of another number of spills is answered.
fn unframed(body: &[u8]) -> Answer
    ensures { (result ≡ on_checked (checked_codes 65506 body.now) (λ k. Err Operand) (λ place. Err (Body place))) × (accepted result ≡ false) }
{
    records::code::check_codes(body, MOST)?;
    Err(Refusal::Operand)
}

// A whole routine around a body of at most 65,506 records, for 0 to 5 arguments.
pub fn into_x86_64_routine(
    out: &mut [u8],
    edition: u64,
    frame: u64,
    body: &[u8],
    arguments: usize,
) -> Answer
    ensures { Assembles out.old out.new result (routine_in edition frame (length out.old) arguments body.now) (routine_bytes_in edition frame arguments body.now) }
{
    match layout::config::shape_of(edition, frame) {
        Ok(g) => routine_in(out, g, body, arguments),
        Err(Unshaped::NoFrame) => unframed(body),
        Err(Unshaped::NoEdition) => Err(Refusal::Edition),
    }
}
