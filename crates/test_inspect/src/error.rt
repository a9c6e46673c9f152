// The words are not as demand 3 says.
#[derive(Clone, Copy, Debug, PartialEq, Eq)]
pub struct Unsound;

impl Unsound {
    pub fn unless(holds: bool) -> Result<(), Unsound> {
        if holds { Ok(()) } else { Err(Unsound) }
    }
}
