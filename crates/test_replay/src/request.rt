// A request and the Rust's answer in 56 bytes, as docs/FORMATS.md has it. Contexts, or a body, follow.
use records::bytes;

#[derive(Clone, Copy)]
pub struct Request {
    pub operation: u8,
    // a condition, an operation of arithmetic, a newline, or which temporary
    pub kind: u8,
    pub label: u32,
    // operands as words
    pub x: u64,
    pub y: u64,
    // a third operand, an immediate, a count, an id
    pub z: u64,
    pub counter: u64,
    // bytes of the context or body that follows, and of a second context
    pub first: usize,
    pub second: usize,
    // the Rust's answer: 0 or a refusal, records or another number, the counter after, the records' checksum
    pub number: u8,
    pub value: u64,
    pub after: u64,
    pub sum: u64,
    // the edition, and how many spills the frame has
    pub edition: u64,
    pub frame: u64,
}

fn wide(x: u8) -> u64 {
    x as u64
}

pub fn request_in(head: &[u8; 56]) -> Request {
    let s = &head[..];
    Request {
        operation: s[0],
        kind: s[1],
        number: s[2],
        label: bytes::number4(s, 4),
        x: bytes::number4(s, 8) as u64,
        y: bytes::number4(s, 12) as u64,
        z: bytes::number8(s, 16),
        counter: bytes::number4(s, 24) as u64,
        first: bytes::number4(s, 28) as usize,
        second: bytes::number4(s, 32) as usize,
        value: bytes::number4(s, 36) as u64,
        after: bytes::number4(s, 40) as u64,
        sum: bytes::number8(s, 44),
        edition: wide(s[3]),
        frame: bytes::number4(s, 52) as u64,
    }
}
