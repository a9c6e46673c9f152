// What is left to look at.
use crate::error::Unsound;

// More than a state of 1,500 blocks and 261 variables leaves in all, in either edition.
pub const MOST: usize = 12000;

// There is room for fewer than MOST.
pub const ROOM: usize = MOST - 1;

// A stack of what is left, in places that are lent.
#[derive(Drop)]
pub struct Work<'a, T> {
    places: &'a mut [T],
    length: usize,
}

impl<'a, T: Copy> Work<'a, T> {
    pub fn new(places: &'a mut [T]) -> Work<'a, T> {
        Work { places, length: 0 }
    }

    pub fn clear(&mut self) {
        self.length = 0;
    }

    pub fn push(&mut self, x: T) -> Result<(), Unsound> {
        let place = self.places.get_mut(self.length).ok_or(Unsound)?;
        *place = x;
        self.length = self.length.wrapping_add(1);
        Ok(())
    }

    pub fn pop(&mut self) -> Option<T> {
        let last = self.length.checked_sub(1)?;
        self.length = last;
        self.places.get(last).copied()
    }
}
