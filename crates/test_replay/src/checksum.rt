// A number for many bytes: read as one number, the first byte highest, modulo the prime 2^56 - 5.
ghost use Rattle.std.specs.Prelude.{◌<◌};

const PRIME: u64 = 72057594037927931;

fn with_byte(sum: u64, byte: u8) -> u64
    requires { sum < 72057594037927931 }
    ensures { result < 72057594037927931 }
{
    (256 * sum + (byte as u64)) % PRIME
}

pub fn checksum(bytes: &[u8]) -> u64 {
    let mut sum = 0;
    for &byte in bytes {
        sum = with_byte(sum, byte);
    }
    sum
}
