// Bytes that are no list of records, by the place of the first bad or surplus one, from 1; an instruction tried alone has place 1, and the heap beside it place 0.
#[derive(Clone, Copy, Debug, PartialEq, Eq)]
pub struct Malformed {
    pub place: usize,
}
