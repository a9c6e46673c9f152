// The names of the 44 instructions, in the sequence of the Rust's enum Code.
ghost use Rattle.std.specs.Prelude.{◌+◌, ◌≤◌};
ghost use Rattle.listing.specs.Names.{code_names};
ghost use Rattle.listing.specs.Listing.{code_name};
ghost use Rattle.text.specs.Text.{spaced};
ghost use Rattle.text.specs.Putting.{farthest, Puts};

// Twelve bytes for each code: the length of its name, then the name, filled up by spaces.
const NAMES: [u8; 528] = *b"\
    \x03ADD        \
    \x05ADDRM      \
    \x05ADDMR      \
    \x04ADDI       \
    \x05ADDIM      \
    \x03SUB        \
    \x05SUBRM      \
    \x05SUBMR      \
    \x04SUBI       \
    \x04IMUL       \
    \x06IMULRM     \
    \x06IMULMR     \
    \x04IDIV       \
    \x05IDIVM      \
    \x03CQO        \
    \x03JMP        \
    \x04JMPL       \
    \x05JMPLN      \
    \x04LEAL       \
    \x03MOV        \
    \x04MOVS       \
    \x04MOVL       \
    \x04MOVI       \
    \x05MOVIM      \
    \x03CMP        \
    \x05CMPRM      \
    \x05CMPMR      \
    \x04CMPI       \
    \x05CMPIM      \
    \x03JEL        \
    \x04JNEL       \
    \x03JLL        \
    \x04JLEL       \
    \x03JGL        \
    \x04JGEL       \
    \x04PUSH       \
    \x03POP        \
    \x04CALL       \
    \x03RET        \
    \x03LAB        \
    \x0bNOEXECSTACK\
    \x04TEXT       \
    \x06GLOBAL     \
    \x06EXTERN     ";

// A space, then the name of a code.
pub fn put_spaced_name(text: &mut [u8], at: usize, code: u8) -> usize
    requires { (1 ≤ code) × (code ≤ 44) × (at + 12 ≤ farthest) }
    ensures { Puts 12 text.old at text.new result (spaced (code_name code_names code)) }
{
    let next = text::put_byte(text, at, b' ');
    let start = 12 * (usize::from(code) - 1);
    let from = start + 1;
    let end = from + usize::from(NAMES[start]);
    text::put_bytes(text, next, &NAMES[from..end])
}
