// A state's words: its blocks with their fields, and its variables.
use crate::edition::Edition;
use crate::error::Unsound;

// The most blocks that a state may have.
pub const BLOCKS: usize = 1500;

// The address of the first block.
const HEAP: u64 = 65536;

// The kind of a variable that holds an integer.
const INTEGER: u8 = 1;

// A stack's words beside the frame: seven past its end, for six registers and what the routine returns to, and room before it for what prints push.
const BESIDE: usize = 64;

// Where the stack ends.
const STACK_END: usize = 1099511627720;

// What a variable or a field holds: its Fst and its Snd.
#[derive(Clone, Copy, Debug, PartialEq, Eq)]
pub(crate) struct Pair {
    pub fst: u64,
    pub snd: u64,
}

#[derive(Clone, Copy)]
pub struct State<'a> {
    pub edition: Edition,
    pub context: &'a [u8],
    pub registers: &'a [u64; 16],
    pub stack: &'a [u64],
    pub heap: &'a [u64],
}

impl State<'_> {
    // How many blocks there are.
    pub(crate) fn blocks(&self) -> usize {
        self.heap.len() / self.edition.block_words()
    }

    // The block at an address, by number.
    pub(crate) fn block_at(&self, address: u64) -> Result<usize, Unsound> {
        let offset = address.checked_sub(HEAP).ok_or(Unsound)? as usize;
        let size = 8 * self.edition.block_words();
        let block = offset / size;
        Unsound::unless(offset % size == 0 && block < self.blocks())?;
        Ok(block)
    }

    // Word 0 of a block, its count or the next pointer.
    pub(crate) fn head_word(&self, block: usize) -> Result<u64, Unsound> {
        self.word(block, 0)
    }

    fn word(&self, block: usize, i: usize) -> Result<u64, Unsound> {
        let place = self
            .edition
            .block_words()
            .wrapping_mul(block)
            .wrapping_add(i);
        self.heap.get(place).copied().ok_or(Unsound)
    }

    pub(crate) fn field(&self, block: usize, field: usize) -> Result<Pair, Unsound> {
        let first = field.wrapping_mul(2).wrapping_add(2);
        Ok(Pair {
            fst: self.word(block, first)?,
            snd: self.word(block, first.wrapping_add(1))?,
        })
    }

    // Positions 0 to 11 are registers 4 to 15; 12 and on are spills 1 and on, which end seven words before the stack's end.
    fn at_position(&self, position: usize) -> Result<u64, Unsound> {
        if position < 12 {
            return Ok(self.registers[position + 4]);
        }
        let place = self.stack.len().wrapping_add(3).wrapping_sub(position);
        self.stack.get(place).copied().ok_or(Unsound)
    }

    pub(crate) fn variable(&self, i: usize) -> Result<Pair, Unsound> {
        let first = i.wrapping_mul(2);
        Ok(Pair {
            fst: self.at_position(first)?,
            snd: self.at_position(first.wrapping_add(1))?,
        })
    }

    // Whether a variable's kind is an integer's.
    pub(crate) fn is_integer(&self, i: usize) -> bool {
        let place = i.wrapping_mul(8).wrapping_add(2);
        self.context.get(place).copied() == Some(INTEGER)
    }

    // The context has as many variables as there are values, and STACK is where the routine's setup leaves it: with six registers and the frame on it.
    pub(crate) fn check_frame(&self, variables: usize) -> Result<(), Unsound> {
        let spills = self.stack.len().wrapping_sub(BESIDE);
        let pointer = STACK_END.wrapping_sub(spills.wrapping_mul(8));
        Unsound::unless(self.registers[0] == pointer as u64)?;
        Unsound::unless(self.context.len() == variables.wrapping_mul(8))
    }
}
