// Products, quotients and remainders of 64-bit words, apart from the machine's: products are modulo 2^64; a quotient and a remainder are those of signed numbers,
// truncated toward zero.
fn low(x: u64) -> u32 {
    (x % 4294967296) as u32
}

fn high(x: u64) -> u32 {
    (x / 4294967296) as u32
}

fn product_of_halves(x: u32, y: u32) -> u64 {
    (x as u64) * (y as u64)
}

// The high half of one by the low half of the other, 32 bits up.
fn across(x: u64, y: u64) -> u64 {
    product_of_halves(high(x), low(y)) % 4294967296 * 4294967296
}

// The product of the high halves is a multiple of 2^64.
pub fn product(x: u64, y: u64) -> u64 {
    let lows = product_of_halves(low(x), low(y));
    lows.wrapping_add(across(x, y)).wrapping_add(across(y, x))
}

fn is_negative(x: u64) -> bool {
    1 << 63 <= x
}

fn magnitude(x: u64) -> u64 {
    if is_negative(x) { x.wrapping_neg() } else { x }
}

// 0 where the divisor is 0.
fn quotient_of_magnitudes(x: u64, d: u64) -> u64 {
    if d == 0 { 0 } else { x / d }
}

pub fn quotient(x: u64, d: u64) -> u64 {
    let q = quotient_of_magnitudes(magnitude(x), magnitude(d));
    if is_negative(x) == is_negative(d) {
        q
    } else {
        q.wrapping_neg()
    }
}

// What the quotient leaves of x.
pub fn remainder(x: u64, d: u64) -> u64 {
    x.wrapping_sub(product(quotient(x, d), d))
}
