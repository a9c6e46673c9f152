// The number of each code: its place in the Rust's enum Code, from 1.
pub const ADD: u8 = 1;

pub const ADDRM: u8 = 2;

pub const ADDMR: u8 = 3;

pub const ADDI: u8 = 4;

pub const ADDIM: u8 = 5;

pub const SUB: u8 = 6;

pub const SUBRM: u8 = 7;

pub const SUBMR: u8 = 8;

pub const SUBI: u8 = 9;

pub const IMUL: u8 = 10;

pub const IMULRM: u8 = 11;

pub const IMULMR: u8 = 12;

pub const IDIV: u8 = 13;

pub const IDIVM: u8 = 14;

pub const CQO: u8 = 15;

pub const JMP: u8 = 16;

pub const JMPL: u8 = 17;

pub const JMPLN: u8 = 18;

pub const LEAL: u8 = 19;

pub const MOV: u8 = 20;

pub const MOVS: u8 = 21;

pub const MOVL: u8 = 22;

pub const MOVI: u8 = 23;

pub const MOVIM: u8 = 24;

pub const CMP: u8 = 25;

pub const CMPRM: u8 = 26;

pub const CMPMR: u8 = 27;

pub const CMPI: u8 = 28;

pub const CMPIM: u8 = 29;

pub const JEL: u8 = 30;

pub const JNEL: u8 = 31;

pub const JLL: u8 = 32;

pub const JLEL: u8 = 33;

pub const JGL: u8 = 34;

pub const JGEL: u8 = 35;

pub const PUSH: u8 = 36;

pub const POP: u8 = 37;

pub const CALL: u8 = 38;

pub const RET: u8 = 39;

pub const LAB: u8 = 40;

pub const NOEXECSTACK: u8 = 41;

pub const TEXT: u8 = 42;

pub const GLOBAL: u8 = 43;

pub const EXTERN: u8 = 44;
