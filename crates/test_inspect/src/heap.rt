// The linear list, the lazy list and the held blocks.
use crate::error::Unsound;
use crate::plain::{Object, PlainMachine};
use crate::state::State;
use crate::work::{MOST, Work};

// Where a block is.
#[derive(Clone, Copy, Debug, PartialEq, Eq)]
enum Place {
    Linear,
    Lazy,
    Held,
}

// What is known of a block: where it is, how many pointers name it, whether it was ever held or on HEAP's list, and the object that was seen in it.
#[derive(Clone, Copy, Debug, PartialEq, Eq)]
pub struct Mark {
    place: Option<Place>,
    pointers: u64,
    was_used: bool,
    seen: Option<Object>,
}

impl Mark {
    pub const NEW: Mark = Mark {
        place: None,
        pointers: 0,
        was_used: false,
        seen: None,
    };

    // All but whether it was ever held or on HEAP's list.
    fn forget(&mut self) {
        *self = Mark {
            was_used: self.was_used,
            ..Mark::NEW
        };
    }

    // A block that is nowhere yet is put somewhere.
    fn claim(&mut self, place: Place) -> Result<(), Unsound> {
        Unsound::unless(self.place.is_none())?;
        self.place = Some(place);
        Ok(())
    }

    // Below the frontier a block is in one of the three, and a held block's count is its pointers less one; from the frontier up it is in none.
    fn check_place(&self, state: &State, block: usize, frontier: usize) -> Result<(), Unsound> {
        match self.place {
            None => Unsound::unless(frontier <= block),
            Some(place) => {
                Unsound::unless(block < frontier)?;
                if place == Place::Held {
                    let count = state.head_word(block)?;
                    return Unsound::unless(count.wrapping_add(1) == self.pointers);
                }
                Ok(())
            }
        }
    }

    // The frontier is the first block never held or on HEAP's list.
    fn check_history(&mut self, block: usize, frontier: usize) -> Result<(), Unsound> {
        if matches!(self.place, Some(Place::Held | Place::Linear)) {
            self.was_used = true;
        }
        Unsound::unless(self.was_used == (block < frontier))
    }
}

// The marks of all blocks, the pointers that are left to follow, and the peak: the most blocks that the variables reached after any one order so far.
#[derive(Drop)]
pub struct Heap<'a> {
    marks: &'a mut [Mark],
    pointers: Work<'a, u64>,
    peak: usize,
}

impl<'a> Heap<'a> {
    // On a mark for each block, new ones, and places for pointers that are left.
    pub fn new(marks: &'a mut [Mark], pointers: &'a mut [u64]) -> Heap<'a> {
        Heap {
            marks,
            pointers: Work::new(pointers),
            peak: 0,
        }
    }

    pub fn peak(&self) -> usize {
        self.peak
    }

    // The blocks of the linear list are marked, and then those that the variables reach, which count for the peak; the lazy list ends at the frontier, which is
    // one block more than the peak; its blocks hold others; and then each block is looked at, which has a mark.
    pub fn check(&mut self, state: &State, machine: &PlainMachine<'_>) -> Result<(), Unsound> {
        for mark in self.marks.iter_mut() {
            mark.forget();
        }
        self.mark_linear(state, state.registers[2])?;
        self.pointers.clear();
        self.push_roots(state, machine)?;
        self.follow(state)?;
        self.raise_peak();
        let frontier = self.mark_lazy(state, state.registers[3])?;
        Unsound::unless(frontier == self.peak.wrapping_add(1))?;
        self.follow(state)?;
        Unsound::unless(state.blocks() <= self.marks.len())?;
        for (block, mark) in self.marks.iter_mut().enumerate() {
            mark.check_place(state, block, frontier)?;
            mark.check_history(block, frontier)?;
        }
        Ok(())
    }

    fn claim(&mut self, block: usize, place: Place) -> Result<(), Unsound> {
        let mark = self.marks.get_mut(block).ok_or(Unsound)?;
        mark.claim(place)
    }

    fn push_pointer(&mut self, pointer: u64) -> Result<(), Unsound> {
        if pointer == 0 {
            return Ok(());
        }
        self.pointers.push(pointer)
    }

    // The Fsts of a block's fields, a link among them.
    fn push_fields(&mut self, state: &State, block: usize) -> Result<(), Unsound> {
        for field in 0..state.edition.fields() {
            self.push_pointer(state.field(block, field)?.fst)?;
        }
        Ok(())
    }

    // From HEAP to 0.
    fn mark_linear(&mut self, state: &State, head: u64) -> Result<(), Unsound> {
        let mut next = head;
        for _ in 0..state.blocks() {
            if next == 0 {
                return Ok(());
            }
            let block = state.block_at(next)?;
            self.claim(block, Place::Linear)?;
            next = state.head_word(block)?;
        }
        Unsound::unless(next == 0)
    }

    // From FREE to the first block that starts with 0, which is the frontier.
    fn mark_lazy(&mut self, state: &State, head: u64) -> Result<usize, Unsound> {
        let mut next = head;
        for _ in 0..state.blocks() {
            let block = state.block_at(next)?;
            next = state.head_word(block)?;
            if next == 0 {
                return Ok(block);
            }
            self.claim(block, Place::Lazy)?;
            self.push_fields(state, block)?;
        }
        Err(Unsound)
    }

    // The pointers in variables.
    fn push_roots(&mut self, state: &State, machine: &PlainMachine<'_>) -> Result<(), Unsound> {
        for i in 0..machine.length() {
            if !machine.variable(i).is_integer() {
                self.push_pointer(state.variable(i)?.fst)?;
            }
        }
        Ok(())
    }

    // The pointers that are left.
    fn follow(&mut self, state: &State) -> Result<(), Unsound> {
        for _ in 0..MOST {
            match self.pointers.pop() {
                Some(pointer) => self.hold(state, pointer)?,
                None => return Ok(()),
            }
        }
        Err(Unsound)
    }

    // One pointer more names a block. One that no pointer named before is held, and its fields are pointers too; it cannot be on a list.
    fn hold(&mut self, state: &State, pointer: u64) -> Result<(), Unsound> {
        let block = state.block_at(pointer)?;
        let mark = self.marks.get_mut(block).ok_or(Unsound)?;
        mark.pointers = mark.pointers.wrapping_add(1);
        if mark.place == Some(Place::Held) {
            return Ok(());
        }
        mark.claim(Place::Held)?;
        self.push_fields(state, block)
    }

    fn raise_peak(&mut self) {
        let held = self
            .marks
            .iter()
            .filter(|mark| mark.place == Some(Place::Held))
            .count();
        self.peak = self.peak.max(held);
    }

    // Notes that an object is seen in a block; whether it was not the one seen there last.
    pub fn see(&mut self, block: usize, object: Object) -> Result<bool, Unsound> {
        let mark = self.marks.get_mut(block).ok_or(Unsound)?;
        let is_new = mark.seen != Some(object);
        mark.seen = Some(object);
        Ok(is_new)
    }
}
