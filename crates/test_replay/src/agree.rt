// The port's answer to a request against the Rust's.
ghost use Rattle.std.specs.Prelude.{◌≡◌, eqb};

use crate::perform::Answered;
use crate::request::Request;
use crate::{checksum, perform};

// The Rust has no numbers for its failures: where it panics, the number is stored that its message stands for, 4, 6 or 8.
fn numbers_agree(rust: u8, port: u64) -> bool
    ensures { result ≡ eqb rust port }
{
    rust as u64 == port
}

// Queries write no records.
fn records_agree(out: &[u8], r: Request) -> bool {
    if 19 < r.operation {
        return true;
    }
    let n = r.value as usize;
    n <= out.len() / 24 && checksum::checksum(&out[..24 * n]) == r.sum
}

fn agrees(out: &[u8], r: Request, answered: Answered) -> bool {
    if !numbers_agree(r.number, answered.number) {
        return false;
    }
    if 0 < answered.number {
        return true;
    }
    answered.value == r.value && answered.counter == r.after && records_agree(out, r)
}

pub fn replay(out: &mut [u8], r: Request, first: &[u8], second: &[u8]) -> bool {
    let answered = perform::perform(out, r, first, second);
    agrees(out, r, answered)
}
