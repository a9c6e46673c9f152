// The editions, which differ in the fields of a block.
ghost use Rattle.std.specs.Prelude.{◌≤◌};

#[derive(Clone, Copy, Debug, PartialEq, Eq)]
pub enum Edition {
    First,
    Second,
}

// The first edition where the number is not that of the second.
impl From<u64> for Edition {
    fn from(number: u64) -> Edition {
        if number == 2 {
            Edition::Second
        } else {
            Edition::First
        }
    }
}

impl Edition {
    // A block's fields.
    pub fn fields(self) -> usize
        ensures some { 3 ≤ result }
        ensures few { result ≤ 7 }
    {
        match self {
            Edition::First => 3,
            Edition::Second => 7,
        }
    }

    // The last of them, which holds the link.
    pub fn link(self) -> usize
        ensures some { 2 ≤ result }
        ensures few { result ≤ 6 }
    {
        self.fields() - 1
    }

    // A block's words.
    pub fn block_words(self) -> usize
        ensures some { 1 ≤ result }
        ensures few { result ≤ 16 }
    {
        2 + 2 * self.fields()
    }
}
