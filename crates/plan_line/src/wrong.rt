// What can be wrong with a line.
#[derive(Clone, Copy, Debug, PartialEq, Eq)]
pub enum Wrong {
    NoSuchOrder,
    NoSuchOperation,
    NotNumber,
    OutOfRange,
    NotTag,
    NotNewline,
    NotKind,
    TooManyKinds,
    MissingWord,
    SurplusWord,
}
