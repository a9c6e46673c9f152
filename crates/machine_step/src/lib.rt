// The machine's instructions on lent registers, stack and heap: addresses, operands, and each kind of instruction.
#![tactic(auto)]

pub mod memory; // where an address lies, and what is read and written there
pub mod operand; // registers, words of memory and values
pub mod instruction; // each kind of instruction
