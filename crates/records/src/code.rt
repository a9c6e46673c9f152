// Instruction records: the Rust's `enum Code` without COMMENT, its uniform fields, checked, read and written.
ghost use Rattle.std.specs.Prelude.{◌≡◌, ◌+◌, ◌≤◌, length, drop};
ghost use Rattle.records.specs.Answers.{AnswersBy};
ghost use Rattle.records.specs.Bytes.{stored};
ghost use Rattle.records.specs.Checked.{checked_cause};
ghost use Rattle.records.specs.Codes.{fields_of, code_of};
ghost use Rattle.records.specs.Instructions.{fields_bytes, fields_in, used, outside_unnamed, label_held, largest, label_within, operands_ok, fields_ok, lab_with, code_starts, checked_codes, code_at, code_cause};

use crate::bytes;
use crate::bytes::{MOST4, MOST8};
use crate::check::Malformed;
use crate::name::{FIRST_UNNAMED, LAST_UNNAMED};

// The machine instructions, labels and directives. Registers are 0 to 15, immediates are 64-bit two's complement, labels are numbers.
#[derive(Clone, Copy)]
pub enum Code {
    ADD(u8, u8),
    ADDRM(u8, u8, u64),
    ADDMR(u8, u64, u8),
    ADDI(u8, u64),
    ADDIM(u8, u64, u64),
    SUB(u8, u8),
    SUBRM(u8, u8, u64),
    SUBMR(u8, u64, u8),
    SUBI(u8, u64),
    IMUL(u8, u8),
    IMULRM(u8, u8, u64),
    IMULMR(u8, u64, u8),
    IDIV(u8),
    IDIVM(u8, u64),
    CQO,
    JMP(u8),
    JMPL(u32),
    JMPLN(u32),
    LEAL(u8, u32),
    MOV(u8, u8),
    MOVS(u8, u8, u64),
    MOVL(u8, u8, u64),
    MOVI(u8, u64),
    MOVIM(u8, u64, u64),
    CMP(u8, u8),
    CMPRM(u8, u8, u64),
    CMPMR(u8, u64, u8),
    CMPI(u8, u64),
    CMPIM(u8, u64, u64),
    JEL(u32),
    JNEL(u32),
    JLL(u32),
    JLEL(u32),
    JGL(u32),
    JGEL(u32),
    PUSH(u8),
    POP(u8),
    CALL(u32),
    RET,
    LAB(u32),
    NOEXECSTACK,
    TEXT,
    GLOBAL(u32),
    EXTERN(u32),
}

// The fields of an instruction record. Those that its code does not use are zero.
#[derive(Clone, Copy)]
pub struct Fields {
    pub code: u8,
    pub a: u8,
    pub b: u8,
    pub label: u32,
    pub offset: u64,
    pub value: u64,
}

impl Fields {
    fn of(code: u8, a: u8, b: u8, label: u32, offset: u64, value: u64) -> Self
        ensures { result ≡ record { code = code; a = a; b = b; label = label; offset = offset; value = value } }
    {
        Self {
            code,
            a,
            b,
            label,
            offset,
            value,
        }
    }
}

pub fn fields_of(c: Code) -> Fields
    ensures { result ≡ fields_of c }
{
    match c {
        Code::ADD(a, b) => Fields::of(1, a, b, 0, 0, 0),
        Code::ADDRM(a, b, offset) => Fields::of(2, a, b, 0, offset, 0),
        Code::ADDMR(a, offset, b) => Fields::of(3, a, b, 0, offset, 0),
        Code::ADDI(a, value) => Fields::of(4, a, 0, 0, 0, value),
        Code::ADDIM(a, offset, value) => Fields::of(5, a, 0, 0, offset, value),
        Code::SUB(a, b) => Fields::of(6, a, b, 0, 0, 0),
        Code::SUBRM(a, b, offset) => Fields::of(7, a, b, 0, offset, 0),
        Code::SUBMR(a, offset, b) => Fields::of(8, a, b, 0, offset, 0),
        Code::SUBI(a, value) => Fields::of(9, a, 0, 0, 0, value),
        Code::IMUL(a, b) => Fields::of(10, a, b, 0, 0, 0),
        Code::IMULRM(a, b, offset) => Fields::of(11, a, b, 0, offset, 0),
        Code::IMULMR(a, offset, b) => Fields::of(12, a, b, 0, offset, 0),
        Code::IDIV(a) => Fields::of(13, a, 0, 0, 0, 0),
        Code::IDIVM(a, offset) => Fields::of(14, a, 0, 0, offset, 0),
        Code::CQO => Fields::of(15, 0, 0, 0, 0, 0),
        Code::JMP(a) => Fields::of(16, a, 0, 0, 0, 0),
        Code::JMPL(label) => Fields::of(17, 0, 0, label, 0, 0),
        Code::JMPLN(label) => Fields::of(18, 0, 0, label, 0, 0),
        Code::LEAL(a, label) => Fields::of(19, a, 0, label, 0, 0),
        Code::MOV(a, b) => Fields::of(20, a, b, 0, 0, 0),
        Code::MOVS(a, b, offset) => Fields::of(21, a, b, 0, offset, 0),
        Code::MOVL(a, b, offset) => Fields::of(22, a, b, 0, offset, 0),
        Code::MOVI(a, value) => Fields::of(23, a, 0, 0, 0, value),
        Code::MOVIM(a, offset, value) => Fields::of(24, a, 0, 0, offset, value),
        Code::CMP(a, b) => Fields::of(25, a, b, 0, 0, 0),
        Code::CMPRM(a, b, offset) => Fields::of(26, a, b, 0, offset, 0),
        Code::CMPMR(a, offset, b) => Fields::of(27, a, b, 0, offset, 0),
        Code::CMPI(a, value) => Fields::of(28, a, 0, 0, 0, value),
        Code::CMPIM(a, offset, value) => Fields::of(29, a, 0, 0, offset, value),
        Code::JEL(label) => Fields::of(30, 0, 0, label, 0, 0),
        Code::JNEL(label) => Fields::of(31, 0, 0, label, 0, 0),
        Code::JLL(label) => Fields::of(32, 0, 0, label, 0, 0),
        Code::JLEL(label) => Fields::of(33, 0, 0, label, 0, 0),
        Code::JGL(label) => Fields::of(34, 0, 0, label, 0, 0),
        Code::JGEL(label) => Fields::of(35, 0, 0, label, 0, 0),
        Code::PUSH(a) => Fields::of(36, a, 0, 0, 0, 0),
        Code::POP(a) => Fields::of(37, a, 0, 0, 0, 0),
        Code::CALL(label) => Fields::of(38, 0, 0, label, 0, 0),
        Code::RET => Fields::of(39, 0, 0, 0, 0, 0),
        Code::LAB(label) => Fields::of(40, 0, 0, label, 0, 0),
        Code::NOEXECSTACK => Fields::of(41, 0, 0, 0, 0, 0),
        Code::TEXT => Fields::of(42, 0, 0, 0, 0, 0),
        Code::GLOBAL(label) => Fields::of(43, 0, 0, label, 0, 0),
        Code::EXTERN(label) => Fields::of(44, 0, 0, label, 0, 0),
    }
}

// The instruction of a record's fields.
fn code_of(f: Fields) -> Code
    requires { (1 ≤ f.code) × (f.code ≤ 44) }
    ensures { result ≡ code_of f }
{
    match f.code {
        1 => Code::ADD(f.a, f.b),
        2 => Code::ADDRM(f.a, f.b, f.offset),
        3 => Code::ADDMR(f.a, f.offset, f.b),
        4 => Code::ADDI(f.a, f.value),
        5 => Code::ADDIM(f.a, f.offset, f.value),
        6 => Code::SUB(f.a, f.b),
        7 => Code::SUBRM(f.a, f.b, f.offset),
        8 => Code::SUBMR(f.a, f.offset, f.b),
        9 => Code::SUBI(f.a, f.value),
        10 => Code::IMUL(f.a, f.b),
        11 => Code::IMULRM(f.a, f.b, f.offset),
        12 => Code::IMULMR(f.a, f.offset, f.b),
        13 => Code::IDIV(f.a),
        14 => Code::IDIVM(f.a, f.offset),
        15 => Code::CQO,
        16 => Code::JMP(f.a),
        17 => Code::JMPL(f.label),
        18 => Code::JMPLN(f.label),
        19 => Code::LEAL(f.a, f.label),
        20 => Code::MOV(f.a, f.b),
        21 => Code::MOVS(f.a, f.b, f.offset),
        22 => Code::MOVL(f.a, f.b, f.offset),
        23 => Code::MOVI(f.a, f.value),
        24 => Code::MOVIM(f.a, f.offset, f.value),
        25 => Code::CMP(f.a, f.b),
        26 => Code::CMPRM(f.a, f.b, f.offset),
        27 => Code::CMPMR(f.a, f.offset, f.b),
        28 => Code::CMPI(f.a, f.value),
        29 => Code::CMPIM(f.a, f.offset, f.value),
        30 => Code::JEL(f.label),
        31 => Code::JNEL(f.label),
        32 => Code::JLL(f.label),
        33 => Code::JLEL(f.label),
        34 => Code::JGL(f.label),
        35 => Code::JGEL(f.label),
        36 => Code::PUSH(f.a),
        37 => Code::POP(f.a),
        38 => Code::CALL(f.label),
        39 => Code::RET,
        40 => Code::LAB(f.label),
        41 => Code::NOEXECSTACK,
        42 => Code::TEXT,
        43 => Code::GLOBAL(f.label),
        _ => Code::EXTERN(f.label),
    }
}

const LAST_REGISTER: u8 = 15;

// The largest value of each field of a record with this code: 0 where the code does not use it. Of one arm for each code the compiler makes read-only tables.
fn most_of(code: u8) -> Fields
    requires { (1 ≤ code) × (code ≤ 44) }
    ensures { result ≡ largest (used code) }
{
    match code {
        1 => Fields::of(code, LAST_REGISTER, LAST_REGISTER, 0, 0, 0),
        2 => Fields::of(code, LAST_REGISTER, LAST_REGISTER, 0, MOST8, 0),
        3 => Fields::of(code, LAST_REGISTER, LAST_REGISTER, 0, MOST8, 0),
        4 => Fields::of(code, LAST_REGISTER, 0, 0, 0, MOST8),
        5 => Fields::of(code, LAST_REGISTER, 0, 0, MOST8, MOST8),
        6 => Fields::of(code, LAST_REGISTER, LAST_REGISTER, 0, 0, 0),
        7 => Fields::of(code, LAST_REGISTER, LAST_REGISTER, 0, MOST8, 0),
        8 => Fields::of(code, LAST_REGISTER, LAST_REGISTER, 0, MOST8, 0),
        9 => Fields::of(code, LAST_REGISTER, 0, 0, 0, MOST8),
        10 => Fields::of(code, LAST_REGISTER, LAST_REGISTER, 0, 0, 0),
        11 => Fields::of(code, LAST_REGISTER, LAST_REGISTER, 0, MOST8, 0),
        12 => Fields::of(code, LAST_REGISTER, LAST_REGISTER, 0, MOST8, 0),
        13 => Fields::of(code, LAST_REGISTER, 0, 0, 0, 0),
        14 => Fields::of(code, LAST_REGISTER, 0, 0, MOST8, 0),
        15 => Fields::of(code, 0, 0, 0, 0, 0),
        16 => Fields::of(code, LAST_REGISTER, 0, 0, 0, 0),
        17 => Fields::of(code, 0, 0, MOST4, 0, 0),
        18 => Fields::of(code, 0, 0, MOST4, 0, 0),
        19 => Fields::of(code, LAST_REGISTER, 0, MOST4, 0, 0),
        20 => Fields::of(code, LAST_REGISTER, LAST_REGISTER, 0, 0, 0),
        21 => Fields::of(code, LAST_REGISTER, LAST_REGISTER, 0, MOST8, 0),
        22 => Fields::of(code, LAST_REGISTER, LAST_REGISTER, 0, MOST8, 0),
        23 => Fields::of(code, LAST_REGISTER, 0, 0, 0, MOST8),
        24 => Fields::of(code, LAST_REGISTER, 0, 0, MOST8, MOST8),
        25 => Fields::of(code, LAST_REGISTER, LAST_REGISTER, 0, 0, 0),
        26 => Fields::of(code, LAST_REGISTER, LAST_REGISTER, 0, MOST8, 0),
        27 => Fields::of(code, LAST_REGISTER, LAST_REGISTER, 0, MOST8, 0),
        28 => Fields::of(code, LAST_REGISTER, 0, 0, 0, MOST8),
        29 => Fields::of(code, LAST_REGISTER, 0, 0, MOST8, MOST8),
        30 => Fields::of(code, 0, 0, MOST4, 0, 0),
        31 => Fields::of(code, 0, 0, MOST4, 0, 0),
        32 => Fields::of(code, 0, 0, MOST4, 0, 0),
        33 => Fields::of(code, 0, 0, MOST4, 0, 0),
        34 => Fields::of(code, 0, 0, MOST4, 0, 0),
        35 => Fields::of(code, 0, 0, MOST4, 0, 0),
        36 => Fields::of(code, LAST_REGISTER, 0, 0, 0, 0),
        37 => Fields::of(code, LAST_REGISTER, 0, 0, 0, 0),
        38 => Fields::of(code, 0, 0, MOST4, 0, 0),
        39 => Fields::of(code, 0, 0, 0, 0, 0),
        40 => Fields::of(code, 0, 0, MOST4, 0, 0),
        41 => Fields::of(code, 0, 0, 0, 0, 0),
        42 => Fields::of(code, 0, 0, 0, 0, 0),
        43 => Fields::of(code, 0, 0, MOST4, 0, 0),
        _ => Fields::of(code, 0, 0, MOST4, 0, 0),
    }
}

// Not 2^31 plus 4 to 15.
fn outside_unnamed(l: u32) -> bool
    ensures { result ≡ outside_unnamed l }
{
    l < FIRST_UNNAMED || LAST_UNNAMED < l
}

// Not 0, and not 2^31 plus 4 to 15.
pub fn label_held(l: u32) -> bool
    ensures { result ≡ label_held l }
{
    l != 0 && outside_unnamed(l)
}

// 0 where `most` is 0, and held where it is MOST4, which is odd. No branch asks whether `most` is 0: the compiler would make `most_of` a jump by the code.
fn label_within(most: u32, l: u32) -> bool
    ensures { result ≡ label_within most l }
{
    l <= most && most % 2 <= l && outside_unnamed(l)
}

fn operands_ok(f: Fields) -> bool
    requires { (1 ≤ f.code) × (f.code ≤ 44) }
    ensures { result ≡ operands_ok (used f.code) f }
{
    let m = most_of(f.code);
    if m.a < f.a {
        return false;
    }
    if m.b < f.b {
        return false;
    }
    if !label_within(m.label, f.label) {
        return false;
    }
    if m.offset < f.offset {
        return false;
    }
    f.value <= m.value
}

pub fn fields_ok(f: Fields) -> bool
    ensures { result ≡ fields_ok f }
{
    if f.code == 0 {
        return false;
    }
    if 44 < f.code {
        return false;
    }
    operands_ok(f)
}

// The fields of the record at byte `at`.
pub fn fields_at(s: &[u8], at: usize) -> Fields
    requires { at + 24 ≤ length s.now }
    ensures { result ≡ fields_in (drop at s.now) }
{
    let label = bytes::number4(s, at + 4);
    let offset = bytes::number8(s, at + 8);
    let value = bytes::number8(s, at + 16);
    Fields {
        code: s[at + 1],
        a: s[at + 2],
        b: s[at + 3],
        label,
        offset,
        value,
    }
}

// Whether the record at byte `at` is LAB with the label; its other fields are not read.
pub fn is_label(s: &[u8], at: usize, label: u32) -> bool
    requires { at + 24 ≤ length s.now }
    ensures { result ≡ lab_with label (fields_in (drop at s.now)) }
{
    if s[at + 1] != 40 {
        return false;
    }
    bytes::number4(s, at + 4) == label
}

// Whether the 24 bytes from byte `at` on are a well-formed record.
fn code_starts(s: &[u8], at: usize) -> bool
    requires { at + 24 ≤ length s.now }
    ensures { result ≡ code_starts (drop at s.now) }
{
    if s[at] != 0xA9 {
        return false;
    }
    fields_ok(fields_at(s, at))
}

// A list of at most 65,536 records, or of `most` where that is fewer. What is left after the whole ones is a part of one, or past the limit.
pub fn check_codes(s: &[u8], most: usize) -> Result<usize, Malformed>
    ensures { AnswersBy checked_cause result (checked_codes most s.now) }
{
    let n = (s.len() / 24).min(most.min(65536));
    for k in 0..n {
        if !code_starts(s, 24 * k) {
            return Err(Malformed { place: k + 1 });
        }
    }
    if 24 * n < s.len() {
        return Err(Malformed { place: n + 1 });
    }
    Ok(n)
}

// Record k, from 0.
pub fn read_code(s: &[u8], k: usize) -> Option<Code>
    ensures { AnswersBy (code_cause k) result (code_at s.now k) }
{
    if s.len() / 24 <= k {
        return None;
    }
    let at = 24 * k;
    if code_starts(s, at) {
        Some(code_of(fields_at(s, at)))
    } else {
        None
    }
}

// The record of f at byte `at`, whole, or nothing where it does not fit.
pub fn write_fields(out: &mut [u8], at: usize, f: Fields)
    ensures { out.new ≡ stored out.old at (fields_bytes f) }
{
    if 24 <= out.len() && at <= out.len() - 24 {
        bytes::store_head(out, at, 0xA9, f.code, f.a, f.b);
        bytes::store4(out, at + 4, f.label);
        bytes::store8(out, at + 8, f.offset);
        bytes::store8(out, at + 16, f.value);
    }
}
